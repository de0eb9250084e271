//! The entries of a leaf of a tree.
ghost use Rattle.std.specs.Prelude.{◌≡◌, ◌≤◌, ◌++◌, length, IfOk, OnOk};
ghost use Rattle.fsfs_dag.specs.Views.{entry_value, entry_values};
ghost use Rattle.fsfs_dag.specs.Listing.Lists.{IsAmong, IsChangedList, kept_names, is_other, is_below, is_from};
ghost use Rattle.fsfs_dag.specs.Listing.Targets.{target_entry};

use crate::DirEntry;
use crate::listing::order::is_below as stands_below;
use crate::listing::target::Target;
use std::alloc::{AllocError, Global};

fn copy_of(alloc: Global, entry: &DirEntry) -> Result<DirEntry, AllocError>
    ensures { IfOk result (λ copy. entry_value copy ≡ entry_value entry.now) }
{
    let name = String::from_str(alloc, entry.name.as_str())?;
    Ok(DirEntry {
        name,
        kind: entry.kind,
        id: entry.id,
    })
}

/// Puts copies of the entries behind those that are there.
pub(crate) fn push_copies(
    alloc: Global,
    all: &mut Vec<DirEntry>,
    entries: &[DirEntry],
) -> Result<(), AllocError>
    ensures { OnOk result (entry_values all.new.items ≡ entry_values all.old.items ++ entry_values entries.now) }
{
    for entry in entries {
        let copy = copy_of(alloc, entry)?;
        all.push(copy)?;
    }
    Ok(())
}

/// A copy of the entries.
pub(crate) fn copies(alloc: Global, entries: &[DirEntry]) -> Result<Vec<DirEntry>, AllocError>
    ensures { IfOk result (λ v. entry_values v.items ≡ entry_values entries.now) }
{
    let mut all = Vec::new(alloc);
    push_copies(alloc, &mut all, entries)?;
    Ok(all)
}

// The entries but the one of a name.
fn others(entries: Vec<DirEntry>, name: &str) -> Vec<DirEntry>
    ensures { entry_values result.items ≡ kept_names (is_other name.now) (entry_values entries.items) }
{
    let mut left = entries;
    left.retain(|entry| entry.name.as_str() != name);
    left
}

/// The entries whose names are below another.
pub(crate) fn below(entries: Vec<DirEntry>, middle: &[u8]) -> Vec<DirEntry>
    ensures { entry_values result.items ≡ kept_names (is_below middle.now) (entry_values entries.items) }
{
    let mut left = entries;
    left.retain(|entry| stands_below(entry.name.as_str(), middle));
    left
}

/// The others.
pub(crate) fn from_on(entries: Vec<DirEntry>, middle: &[u8]) -> Vec<DirEntry>
    ensures { entry_values result.items ≡ kept_names (is_from middle.now) (entry_values entries.items) }
{
    let mut left = entries;
    left.retain(|entry| !stands_below(entry.name.as_str(), middle));
    left
}

// How many of the first entries have names below this one.
fn place_of(entries: &[DirEntry], name: &str) -> usize
    ensures { result ≤ length entries.now }
{
    let mut at = 0usize;
    for entry in entries {
        if !stands_below(entry.name.as_str(), name.as_bytes()) {
            return at;
        }
        at += 1;
    }
    at
}

// The entries with one more among them, where its name has its place.
fn put_among(entries: Vec<DirEntry>, entry: DirEntry) -> Result<Vec<DirEntry>, AllocError>
    ensures { IfOk result (λ v. IsAmong (entry_values entries.items) (entry_value entry) (entry_values v.items)) }
{
    let mut all = entries;
    let at = place_of(&all, entry.name.as_str());
    match all.insert(at, entry) {
        Ok(()) => Ok(all),
        Err(_) => Err(AllocError),
    }
}

/// A copy of the entries with this behind a name, or with nothing. Entries in byte order of their names stay so.
pub(crate) fn changed_leaf(
    alloc: Global,
    entries: &[DirEntry],
    name: &str,
    target: Option<Target>,
) -> Result<Vec<DirEntry>, AllocError>
    ensures { IfOk result (λ v. IsChangedList (entry_values entries.now) (entry_values v.items) name.now (target_entry name.now target)) }
{
    let all = copies(alloc, entries)?;
    let left = others(all, name);
    match target {
        None => Ok(left),
        Some(target) => {
            let name = String::from_str(alloc, name)?;
            let put = put_among(
                left,
                DirEntry {
                    name,
                    kind: target.kind,
                    id: target.id,
                },
            )?;
            Ok(put)
        }
    }
}
