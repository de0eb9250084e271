//! The list of a directory as it is written.
ghost use Rattle.std.specs.Prelude.{IfOk, IfSome, OnOk};
ghost use Rattle.fsfs_dag.specs.EntryDumps.{IsListText, IsEntryAdded};
ghost use Rattle.fsfs_dag.specs.Views.{entry_value, entry_values};

use crate::directory::DirEntry;
use crate::entry_lists::{entry_pairs, entry_text};
use fsfs_layout::{add_entry, write_hash};
use std::alloc::{AllocError, Global};
use std::cmp::Ordering;

fn put_entry(alloc: Global, out: &mut Vec<u8>, entry: &DirEntry) -> Result<(), AllocError>
    ensures { OnOk result (IsEntryAdded out.old.items out.new.items (entry_value entry.now)) }
{
    let value = entry_text(alloc, entry.kind, &entry.id)?;
    add_entry(out, entry.name.as_bytes(), value.as_slice())?;
    Ok(())
}

// The list of entries that stand in byte order of their names, straight from these; none: they don't.
fn rising_dump(alloc: Global, entries: &[DirEntry]) -> Result<Option<Vec<u8>>, AllocError>
    ensures { IfOk result (λ text. IfSome text (λ v. IsListText (entry_values entries.now) v.items)) }
{
    let mut out = Vec::new(alloc);
    let mut last: &[u8] = b"";
    for entry in entries {
        let name = entry.name.as_bytes();
        match last.cmp(name) {
            Ordering::Less => last = name,
            Ordering::Equal | Ordering::Greater => return Ok(None),
        }
        put_entry(alloc, &mut out, entry)?;
    }
    out.extend_from_slice(b"END\n")?;
    Ok(Some(out))
}

/// The list of a directory with these entries, in byte order of their names; the first entry of a name counts. Entries in that
/// order are written as they come.
pub fn entry_dump(alloc: Global, entries: &[DirEntry]) -> Result<Vec<u8>, AllocError>
    ensures { IfOk result (λ v. IsListText (entry_values entries.now) v.items) }
{
    if let Some(text) = rising_dump(alloc, entries)? {
        return Ok(text);
    }
    let pairs = entry_pairs(alloc, entries)?;
    let text = write_hash(alloc, &pairs)?;
    Ok(text)
}
