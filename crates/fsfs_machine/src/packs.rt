//! Packs: what a shard's pack and manifest are, and where the file of a revision stands.
ghost use Rattle.std.specs.Prelude.{◌≡◌, ◌<◌, false, IfOk, MatchOption, Some, None};
ghost use Rattle.fsfs_machine.specs.Disk.{packed, shown, as_file, is_rev_file};
ghost use Rattle.fsfs_machine.specs.Machine.{parts_from, starts, pack_of, manifest_of};

use crate::contents::{Bytes, Contents, FileName, NameChange, Offsets, Part, Parts};
use crate::files::find;
use crate::line::Line;
use fsfs_tree::{ChangeMap, Tree};
use std::alloc::{AllocError, Global};
use std::collections::VecDeque;

// The revisions of the shard that begins at this floor, as far as there are any.
fn parts_from(alloc: Global, line: &Line, size: u64, floor: u128) -> Result<Parts, AllocError>
    ensures { IfOk result (λ xs. xs ≡ parts_from size floor line.now) }
{
    let mut parts = Vec::new(alloc);
    let first = floor.min(line.count() as u128) as usize;
    let count = (line.count() - first).min(size as usize);
    for number in first..first + count {
        if let Some(part) = line.part(alloc, number)? {
            parts.push(part)?;
        }
    }
    Ok(Parts { parts })
}

// Where each of the revisions begins, one behind another.
fn starts_of(alloc: Global, parts: &Parts) -> Result<Offsets, AllocError>
    ensures { IfOk result (λ os. os ≡ starts 0 parts.now) }
{
    let mut offsets = Vec::new(alloc);
    let mut at: u128 = 0;
    for part in &parts.parts {
        offsets.push(at)?;
        at += part.bytes.count() as u128;
    }
    Ok(Offsets { offsets })
}

/// The pack of the shard of this size that begins at the floor.
pub fn pack_file(alloc: Global, line: &Line, size: u64, floor: u128) -> Result<Contents, AllocError>
    ensures { IfOk result (λ c. c ≡ pack_of (parts_from size floor line.now)) }
{
    let parts = parts_from(alloc, line, size, floor)?;
    let offsets = starts_of(alloc, &parts)?;
    Ok(Contents::PackFile(offsets, parts))
}

/// The manifest beside it.
pub fn manifest_file(
    alloc: Global,
    line: &Line,
    size: u64,
    floor: u128,
) -> Result<Contents, AllocError>
    ensures { IfOk result (λ c. c ≡ manifest_of (parts_from size floor line.now)) }
{
    let parts = parts_from(alloc, line, size, floor)?;
    Ok(Contents::ManifestFile(starts_of(alloc, &parts)?))
}

/// What a revision file shows, and its bytes.
pub struct Shown<'a> {
    pub tree: &'a Tree,
    pub changes: &'a ChangeMap,
    pub bytes: &'a Bytes,
}

// The revision in the pack of its shard.
fn find_packed<'a>(disk: &'a VecDeque<NameChange>, size: u64, rev: u64) -> Option<&'a Part>
    requires some { 0 < size }
    ensures { MatchOption result (packed size disk.now.items rev ≡ None) (λ x. packed size disk.now.items rev ≡ as_file (Some x.now)) }
{
    let shard = (rev / size) as u128;
    match (
        find(disk, &FileName::Pack(shard)),
        find(disk, &FileName::Manifest(shard)),
    ) {
        (Some(Contents::PackFile(read_by, parts)), Some(Contents::ManifestFile(offsets))) => {
            if read_by.offsets == offsets.offsets {
                parts.parts.get((rev % size) as usize)
            } else {
                None
            }
        }
        _ => None,
    }
}

/// The revision's file: its part of its shard's pack below the floor, else its own.
pub fn find_shown<'a>(
    disk: &'a VecDeque<NameChange>,
    size: u64,
    floor: u128,
    rev: u64,
) -> Option<Shown<'a>>
    requires some { 0 < size }
    ensures { MatchOption result (is_rev_file (shown size floor disk.now.items rev) ≡ false) (λ x. shown size floor disk.now.items rev ≡ Some (Contents.RevFile x.tree.now x.changes.now x.bytes.now)) }
{
    if (rev as u128) < floor {
        let Part {
            tree,
            changes,
            bytes,
        } = find_packed(disk, size, rev)?;
        return Some(Shown {
            tree,
            changes,
            bytes,
        });
    }
    match find(disk, &FileName::Rev(rev)) {
        Some(Contents::RevFile(tree, changes, bytes)) => Some(Shown {
            tree,
            changes,
            bytes,
        }),
        _ => None,
    }
}
