//! What was read of node-revisions of revisions.
ghost use Rattle.std.specs.Prelude.{◌≡◌, ◌≤◌, ℕ, true, Err, IfOk, IfErr, IfSome, is_some};
ghost use Rattle.fsfs_revision.specs.Told.{RevisionBytes, Knows, Keeps};
ghost use Rattle.fsfs_revision.specs.Damage.Causes.{HasCause};
ghost use Rattle.fsfs_revision.specs.Damage.Readings.{IfWrong};
ghost use Rattle.fsfs_revision.specs.Shows.Reading.{offset_of};
ghost use Rattle.fsfs_dag.specs.Listing.Views.{listed};
ghost use Rattle.fsfs_draft.specs.Entries.{OfIdEntries};
ghost use Rattle.fsfs_txn.specs.Opened.Knowing.{IsListOf, IsKnownUpTo, AreKnown, IsWhole};
ghost use Rattle.fsfs_txn.specs.Opened.Leading.{IsAmong};

use fsfs_base::Pairs;
use fsfs_dag::{Listing, named_node, props, same_id};
use fsfs_draft::lasting_entries;
use fsfs_noderev::{NodeId, NodeRev};
use fsfs_revision::{Book, ReadError};
use std::alloc::Global;

/// A node-revision of a revision, with its entries, if it is a directory, and its properties.
#[derive(Drop)]
pub struct Known {
    pub node: NodeRev,
    pub entries: Listing,
    pub props: Pairs,
}

// The entries of the directory of an id in a revision, by their names; a file has none.
fn listing_of<B: Book>(alloc: Global, book: &mut B, id: &NodeId) -> Result<Listing, ReadError>
    ensures told { (look : RevisionBytes) → Knows (B.told book.old).revs (offset_of id.now.place).rev look → IfOk result (λ l. IsListOf look id.now (listed l)) }
    ensures wrong { (look : RevisionBytes) → Knows (B.told book.old).revs (offset_of id.now.place).rev look → IfErr result (IfWrong (λ w. OfIdEntries look id.now (Err w))) }
    ensures kept { Keeps (B.told book.old) (B.told book.new) }
    ensures cause { HasCause (B.faults book.old) (B.faults book.new) result }
{
    let entries = lasting_entries(alloc, book, id)?;
    match Listing::of(alloc, entries) {
        Ok(listing) => Ok(listing),
        Err(_) => Err(ReadError::OutOfMemory),
    }
}

/// The node-revision of an id in a revision, with what is in it.
pub(crate) fn known_of<B: Book>(
    alloc: Global,
    book: &mut B,
    id: &NodeId,
) -> Result<Known, ReadError>
    ensures known { (look : RevisionBytes) (top : ℕ) → Knows (B.told book.old).revs top look → IfOk result (IsKnownUpTo look top) }
    ensures id { IfOk result (λ k. k.node.id ≡ id.now) }
    ensures whole { (look : RevisionBytes) (top : ℕ) → Knows (B.told book.old).revs top look → (offset_of id.now.place).rev ≤ top → IsWhole look id.now → IfErr result (IfWrong (λ _. ⊥)) }
    ensures kept { Keeps (B.told book.old) (B.told book.new) }
    ensures cause { HasCause (B.faults book.old) (B.faults book.new) result }
{
    let found = named_node(alloc, book, id)?;
    let props = props(alloc, book, &found)?;
    let entries = listing_of(alloc, book, id)?;
    Ok(Known {
        node: found.node,
        entries,
        props,
    })
}

/// What is known of the node-revision of an id.
pub(crate) fn find<'a>(known: &'a [Known], id: &NodeId) -> Option<&'a Known>
    ensures known { (look : RevisionBytes) (top : ℕ) → AreKnown look top known.now → IfSome result (λ k. IsKnownUpTo look top k.now) }
    ensures id { IfSome result (λ k. k.now.node.id ≡ id.now) }
    ensures found { IsAmong id.now known.now → is_some result ≡ true }
{
    for one in known {
        if same_id(&one.node.id, id) {
            return Some(one);
        }
    }
    None
}
