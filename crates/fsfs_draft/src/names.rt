//! How many names an own directory has.
ghost use Rattle.std.specs.Prelude.{◌≡◌, true, IfOk};
ghost use Rattle.fsfs_revision.specs.Told.{Keeps};
ghost use Rattle.fsfs_dag.specs.Views.{entry_values};
ghost use Rattle.fsfs_draft.specs.Causes.{HasDiskCause, HasBenchCause};
ghost use Rattle.fsfs_draft.specs.Views.{kept_value};
ghost use Rattle.fsfs_draft.specs.Names.{HasFew, HasNames, IsRoom, TellsRoom};

use crate::entries::entries_in;
use crate::error::EditError;
use crate::txn_noderevs::{KeptNode, Own};
use fsfs_base::FsPath;
use fsfs_dag::DirEntry;
use fsfs_noderev::NodeId;
use fsfs_revision::Book;
use std::alloc::{AllocError, Global};
use std::collections::BTreeSet;

const MOST_ENTRIES: usize = 1048576;

// How many names the entries have.
fn name_count(alloc: Global, entries: &[DirEntry]) -> Result<usize, AllocError>
    ensures { IfOk result (HasNames (entry_values entries.now)) }
{
    let mut seen = BTreeSet::new(alloc);
    for entry in entries {
        let path = FsPath::root(alloc).child(alloc, entry.name.as_str())?;
        seen.insert(path)?;
    }
    Ok(seen.len())
}

// Whether a directory of these entries may have one more. As long as the list is short, no name is counted.
fn has_room(alloc: Global, entries: &[DirEntry]) -> Result<bool, AllocError>
    ensures { IfOk result (IsRoom (entry_values entries.now)) }
{
    if entries.len() < MOST_ENTRIES {
        return Ok(true);
    }
    let count = name_count(alloc, entries)?;
    Ok(count < MOST_ENTRIES)
}

// Whether a directory has fewer entries than it may have, as far as its `children` file tells without a count.
fn has_few(kept: &KeptNode) -> bool
    ensures { result ≡ true → HasFew (kept_value kept.now) }
{
    match &kept.entries {
        None => false,
        Some(entries) => entries.most() < MOST_ENTRIES,
    }
}

/// Whether an own directory may have one more entry: it has fewer than 1,048,576.
pub fn room_in<B: Book, N: Own>(
    alloc: Global,
    book: &mut B,
    own: &N,
    dir: &NodeId,
) -> Result<bool, EditError>
    ensures tells { TellsRoom (B.told book.old).revs (N.folder own.now) dir.now result }
    ensures kept { Keeps (B.told book.old) (B.told book.new) }
    ensures cause { HasDiskCause (B.faults book.old) (B.faults book.new) result }
    ensures bench { HasBenchCause (N.faults own.now) (N.faults own.now) result }
{
    let Some(kept) = own.kept(dir) else {
        return Err(EditError::Lacking);
    };
    if has_few(kept) {
        return Ok(true);
    }
    let entries = entries_in(alloc, book, kept)?;
    let room = has_room(alloc, &entries)?;
    Ok(room)
}
