//! The entries of an own directory.
ghost use Rattle.std.specs.Prelude.{◌≡◌, ◌≤◌, ℕ, List, Some, Ok, IfOk, IfErr, IfSome, map, take};
ghost use Rattle.fsfs_base.specs.declared.kind.Kind.TheVariants.{Dir};
ghost use Rattle.fsfs_revision.specs.Told.{RevisionBytes, Knows, Keeps};
ghost use Rattle.fsfs_revision.specs.Damage.Readings.{Answers};
ghost use Rattle.fsfs_revision.specs.Shows.Reading.{offset_of};
ghost use Rattle.fsfs_revision.specs.Damage.Causes.{HasCause};
ghost use Rattle.fsfs_dag.specs.Views.{entry_values};
ghost use Rattle.fsfs_dag.specs.Listing.Views.{listed};
ghost use Rattle.fsfs_draft.specs.Entries.{OfKept, OfIdEntries, IsWithin, IsListedAs, FailsLike};
ghost use Rattle.fsfs_draft.specs.Views.{kept_value};

use crate::txn_noderevs::KeptNode;
use fsfs_base::Kind;
use fsfs_dag::{DirEntry, Listing, entries, named_node};
use fsfs_noderev::NodeId;
use fsfs_revision::{Book, ReadError};
use std::alloc::Global;

/// The entries of the directory of an id in a revision; a file has none.
pub fn lasting_entries<B: Book>(
    alloc: Global,
    book: &mut B,
    id: &NodeId,
) -> Result<Vec<DirEntry>, ReadError>
    ensures told { (look : RevisionBytes) → Knows (B.told book.old).revs (offset_of id.now.place).rev look → Answers (λ v. entry_values v.items) (OfIdEntries look id.now) result }
    ensures kept { Keeps (B.told book.old) (B.told book.new) }
    ensures cause { HasCause (B.faults book.old) (B.faults book.new) result }
{
    let found = named_node(alloc, book, id)?;
    match found.node.kind {
        Kind::File => Ok(Vec::new(alloc)),
        Kind::Dir => entries(alloc, book, &found),
    }
}

/// The entries of an own directory: those of its `children` file, or of what it goes on from.
pub fn entries_in<B: Book>(
    alloc: Global,
    book: &mut B,
    kept: &KeptNode,
) -> Result<Vec<DirEntry>, ReadError>
    ensures told { (look : RevisionBytes) (top : ℕ) → Knows (B.told book.old).revs top look → IsWithin top kept.now.node.predecessor → Answers (λ v. entry_values v.items) (OfKept look (kept_value kept.now)) result }
    ensures kept { Keeps (B.told book.old) (B.told book.new) }
    ensures cause { HasCause (B.faults book.old) (B.faults book.new) result }
{
    match &kept.entries {
        Some(entries) => match entries.to_vec(alloc) {
            Ok(all) => Ok(all),
            Err(_) => Err(ReadError::OutOfMemory),
        },
        None => match &kept.node.predecessor {
            None => Ok(Vec::new(alloc)),
            Some(id) => lasting_entries(alloc, book, id),
        },
    }
}

/// The entries of an own directory by their names: those of its `children` file, of which none is copied, or of what it goes on
/// from.
pub fn listed_in<B: Book>(
    alloc: Global,
    book: &mut B,
    kept: &KeptNode,
) -> Result<Listing, ReadError>
    ensures told { (look : RevisionBytes) (top : ℕ) → Knows (B.told book.old).revs top look → IsWithin top kept.now.node.predecessor → IfOk result (λ l. IsListedAs look (kept_value kept.now) (listed l)) }
    ensures own { IfOk result (λ l. IfSome (kept_value kept.now).entries (λ entries. listed l ≡ entries)) }
    ensures fails { (look : RevisionBytes) (top : ℕ) → Knows (B.told book.old).revs top look → IsWithin top kept.now.node.predecessor → IfErr result (FailsLike look (kept_value kept.now)) }
    ensures kept { Keeps (B.told book.old) (B.told book.new) }
    ensures cause { HasCause (B.faults book.old) (B.faults book.new) result }
{
    if let Some(entries) = &kept.entries {
        return match entries.shared() {
            Ok(listing) => Ok(listing),
            Err(_) => Err(ReadError::OutOfMemory),
        };
    }
    let entries = entries_in(alloc, book, kept)?;
    match Listing::of(alloc, entries) {
        Ok(listing) => Ok(listing),
        Err(_) => Err(ReadError::OutOfMemory),
    }
}
