//! The properties of an own node-revision.
ghost use Rattle.std.specs.Prelude.{◌≡◌, ℕ};
ghost use Rattle.fsfs_revision.specs.Told.{RevisionBytes, Knows, Keeps};
ghost use Rattle.fsfs_revision.specs.Damage.Readings.{Answers};
ghost use Rattle.fsfs_revision.specs.Shows.Reading.{offset_of};
ghost use Rattle.fsfs_revision.specs.Damage.Causes.{HasCause};
ghost use Rattle.fsfs_draft.specs.Entries.{IsWithin};
ghost use Rattle.fsfs_draft.specs.Properties.{OfIdProps, OfKeptProps};
ghost use Rattle.fsfs_draft.specs.Views.{kept_value};

use crate::txn_noderevs::KeptNode;
use fsfs_base::Pairs;
use fsfs_dag::{named_node, props};
use fsfs_noderev::NodeId;
use fsfs_revision::{Book, ReadError};
use std::alloc::Global;

// The properties of the node-revision of an id in a revision.
fn properties_of<B: Book>(alloc: Global, book: &mut B, id: &NodeId) -> Result<Pairs, ReadError>
    ensures told { (look : RevisionBytes) → Knows (B.told book.old).revs (offset_of id.now.place).rev look → Answers (λ pairs. pairs) (OfIdProps look id.now) result }
    ensures kept { Keeps (B.told book.old) (B.told book.new) }
    ensures cause { HasCause (B.faults book.old) (B.faults book.new) result }
{
    let found = named_node(alloc, book, id)?;
    props(alloc, book, &found)
}

/// The properties of an own node-revision: those of its `props` file, or of what it goes on from.
pub fn properties_in<B: Book>(
    alloc: Global,
    book: &mut B,
    kept: &KeptNode,
) -> Result<Pairs, ReadError>
    ensures told { (look : RevisionBytes) (top : ℕ) → Knows (B.told book.old).revs top look → IsWithin top kept.now.node.predecessor → Answers (λ pairs. pairs) (OfKeptProps look (kept_value kept.now)) result }
    ensures kept { Keeps (B.told book.old) (B.told book.new) }
    ensures cause { HasCause (B.faults book.old) (B.faults book.new) result }
{
    match &kept.props {
        Some(pairs) => match pairs.clone() {
            Ok(pairs) => Ok(pairs),
            Err(_) => Err(ReadError::OutOfMemory),
        },
        None => match &kept.node.predecessor {
            None => Ok(Pairs::new(alloc)),
            Some(id) => properties_of(alloc, book, id),
        },
    }
}
