//! The machine's disk: what has a name, what a call changes, what a crash leaves.
ghost use Rattle.std.specs.Prelude.{◌≡◌, ◌++◌, [], drop, OnOk, IfOk, MatchOption, Some, None};
ghost use Rattle.fsfs_machine.specs.Disk.{found, same_name, left, is_picked, kept_where, is_firm_change};
ghost use Rattle.fsfs_machine.specs.Machine.{comes, is_fine_in, number_of};

use crate::contents::{Contents, FileName, NameChange};
use crate::machine::Went;
use std::alloc::{AllocError, Global};
use std::collections::VecDeque;

fn same(a: &FileName, b: &FileName) -> bool
    ensures { result ≡ same_name a.now b.now }
{
    match a {
        FileName::Current => matches!(b, FileName::Current),
        FileName::CurrentNext => matches!(b, FileName::CurrentNext),
        FileName::Counter => matches!(b, FileName::Counter),
        FileName::CounterNext => matches!(b, FileName::CounterNext),
        FileName::Floor => matches!(b, FileName::Floor),
        FileName::FloorNext => matches!(b, FileName::FloorNext),
        FileName::Rev(n) => matches!(b, FileName::Rev(m) if *n == *m),
        FileName::Props(n) => matches!(b, FileName::Props(m) if *n == *m),
        FileName::Pack(n) => matches!(b, FileName::Pack(m) if *n == *m),
        FileName::Manifest(n) => matches!(b, FileName::Manifest(m) if *n == *m),
    }
}

/// The file that has the name: changes stand with the newest first.
pub fn find<'a>(disk: &'a VecDeque<NameChange>, name: &FileName) -> Option<&'a Contents>
    ensures { MatchOption result (found disk.now.items name.now ≡ None) (λ c. found disk.now.items name.now ≡ Some c.now) }
{
    for change in disk {
        match change {
            NameChange::Put(at, contents) => {
                if same(at, name) {
                    return Some(contents);
                }
            }
            NameChange::Rename(from, to, contents) => {
                if same(to, name) {
                    return Some(contents);
                }
                if same(from, name) {
                    return None;
                }
            }
            NameChange::Remove(at) => {
                if same(at, name) {
                    return None;
                }
            }
            NameChange::Firm => {}
        }
    }
    None
}

/// The number in a file.
pub fn find_number(disk: &VecDeque<NameChange>, name: &FileName) -> Option<u128>
    ensures { result ≡ number_of (found disk.now.items name.now) }
{
    match find(disk, name) {
        Some(Contents::Number(number)) => Some(*number),
        _ => None,
    }
}

/// Whether the call was done.
pub fn is_fine(went: &Went) -> bool
    ensures { result ≡ is_fine_in went.now }
{
    matches!(went, Went::Fine)
}

/// The change that a call leaves, however it went.
pub fn change_made(went: Went, change: NameChange) -> Option<NameChange>
    ensures { result ≡ comes went change }
{
    match went {
        Went::Fine | Went::After => Some(change),
        Went::Before => None,
        Went::Torn(any) => match change {
            NameChange::Put(name, _) => Some(NameChange::Put(name, any)),
            _ => None,
        },
    }
}

/// What a crash leaves of the disk, where the changes that are picked come through.
pub fn what_is_left(
    alloc: Global,
    mut disk: VecDeque<NameChange>,
    picks: &[bool],
) -> Result<VecDeque<NameChange>, AllocError>
    ensures { IfOk result (λ o. o.items ≡ left picks.now disk.items) }
{
    let mut out = VecDeque::new(alloc);
    let mut rest = picks;
    while let Some(change) = disk.pop_front() {
        if is_firm(&change) {
            out.push_back(change)?;
            append(&mut out, disk)?;
            return Ok(out);
        }
        keep(&mut out, change, is_picked_first(rest))?;
        rest = without_first(rest);
    }
    Ok(out)
}

fn is_firm(change: &NameChange) -> bool
    ensures { result ≡ is_firm_change change.now }
{
    matches!(change, NameChange::Firm)
}

// Whether the first is picked.
pub(crate) fn is_picked_first(picks: &[bool]) -> bool
    ensures { result ≡ is_picked picks.now }
{
    match picks {
        [] => false,
        [first, ..] => *first,
    }
}

pub(crate) fn without_first(picks: &[bool]) -> &[bool]
    ensures { result.now ≡ drop 1 picks.now }
{
    match picks {
        [] => picks,
        [_, rest @ ..] => rest,
    }
}

fn keep(out: &mut VecDeque<NameChange>, change: NameChange, picked: bool) -> Result<(), AllocError>
    ensures { OnOk result (out.new.items ≡ out.old.items ++ kept_where picked change []) }
{
    if picked {
        out.push_back(change)?;
    }
    Ok(())
}

fn append(out: &mut VecDeque<NameChange>, mut more: VecDeque<NameChange>) -> Result<(), AllocError>
    ensures { OnOk result (out.new.items ≡ out.old.items ++ more.items) }
{
    while let Some(change) = more.pop_front() {
        out.push_back(change)?;
    }
    Ok(())
}
