//! What is read of an id: a node-revision of a revision, or the transaction's own.
ghost use Rattle.std.specs.Prelude.{◌≡◌, ℕ, option_map};
ghost use Rattle.fsfs_revision.specs.Told.{RevisionBytes, Knows, Keeps};
ghost use Rattle.fsfs_revision.specs.Damage.Readings.{Answers};
ghost use Rattle.fsfs_revision.specs.Damage.Causes.{HasCause};
ghost use Rattle.fsfs_dag.specs.Views.{entry_values};
ghost use Rattle.fsfs_revision.specs.Shows.Reading.{OfId, offset_of};
ghost use Rattle.fsfs_draft.specs.Views.{kept_value};
ghost use Rattle.fsfs_merge.specs.Clash.Readings.{kept_in, IsIn, FactsBy, FactsOf, ListOf};

use crate::clash::facts::{Facts, facts_of, in_txn};
use fsfs_dag::{DirEntry, named_node};
use fsfs_draft::{KeptNode, Own, entries_in, lasting_entries};
use fsfs_noderev::NodeId;
use fsfs_revision::{Book, ReadError};
use std::alloc::Global;

// The own node-revision of an id; none: the transaction keeps none of it.
fn kept_in<'a, N: Own>(own: &'a N, id: &NodeId) -> Option<&'a KeptNode>
    ensures { option_map (λ k. kept_value k.now) result ≡ kept_in (N.folder own.now) id.now }
{
    if !in_txn(&id.place) {
        return None;
    }
    own.kept(id)
}

// What a merge asks of the node-revision of an id of a revision.
fn lasting_facts<B: Book>(alloc: Global, book: &mut B, id: &NodeId) -> Result<Facts, ReadError>
    ensures told { (look : RevisionBytes) → Knows (B.told book.old).revs (offset_of id.now.place).rev look → Answers (λ facts. facts) (FactsBy (OfId look id.now)) result }
    ensures kept { Keeps (B.told book.old) (B.told book.new) }
    ensures cause { HasCause (B.faults book.old) (B.faults book.new) result }
{
    let found = named_node(alloc, book, id)?;
    Ok(facts_of(&found.node))
}

/// What a merge asks of the node-revision of an id.
pub(crate) fn facts_in<B: Book, N: Own>(
    alloc: Global,
    book: &mut B,
    own: &N,
    id: &NodeId,
) -> Result<Facts, ReadError>
    ensures told { (look : RevisionBytes) (top : ℕ) → Knows (B.told book.old).revs top look → IsIn top (N.folder own.now) id.now → Answers (λ facts. facts) (FactsOf look (N.folder own.now) id.now) result }
    ensures kept { Keeps (B.told book.old) (B.told book.new) }
    ensures cause { HasCause (B.faults book.old) (B.faults book.new) result }
{
    match kept_in(own, id) {
        Some(kept) => Ok(facts_of(&kept.node)),
        None => lasting_facts(alloc, book, id),
    }
}

/// The entries of the directory of an id.
pub(crate) fn entries_of<B: Book, N: Own>(
    alloc: Global,
    book: &mut B,
    own: &N,
    id: &NodeId,
) -> Result<Vec<DirEntry>, ReadError>
    ensures told { (look : RevisionBytes) (top : ℕ) → Knows (B.told book.old).revs top look → IsIn top (N.folder own.now) id.now → Answers (λ v. entry_values v.items) (ListOf look (N.folder own.now) id.now) result }
    ensures kept { Keeps (B.told book.old) (B.told book.new) }
    ensures cause { HasCause (B.faults book.old) (B.faults book.new) result }
{
    match kept_in(own, id) {
        Some(kept) => entries_in(alloc, book, kept),
        None => lasting_entries(alloc, book, id),
    }
}
