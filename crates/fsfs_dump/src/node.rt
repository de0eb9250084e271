//! The node that an item is about.
ghost use Rattle.std.specs.Prelude.{◌≡◌, ◌≤◌, false, IfOk};
ghost use Rattle.fsfs_revision.specs.Damage.Causes.{HasCause};
ghost use Rattle.fsfs_revision.specs.Damage.Readings.{Answers};
ghost use Rattle.fsfs_revision.specs.Told.{RevisionBytes, Knows, Keeps};
ghost use Rattle.fsfs_dag.specs.Views.{home_of};
ghost use Rattle.fsfs_dump.specs.Readings.{NodeBy, NodeOf};

use fsfs_base::RevNum;
use fsfs_dag::{Met, PlacedNode, named_node, node_at};
use fsfs_history::is_nameable;
use fsfs_noderev::ChangeItem;
use fsfs_revision::{Book, DamageKind, ReadError, RevOffset};
use std::alloc::Global;

// The node at the path of an item.
fn node_there<B: Book>(
    alloc: Global,
    book: &mut B,
    rev: RevNum,
    item: &ChangeItem,
) -> Result<PlacedNode, ReadError>
    ensures told { (look : RevisionBytes) → Knows (B.told book.old).revs rev look → Answers (λ found. found.node) (NodeBy look rev item.now false) result }
    ensures within { (look : RevisionBytes) → Knows (B.told book.old).revs rev look → IfOk result (λ found. (home_of found.node).rev ≤ rev) }
    ensures kept { Keeps (B.told book.old) (B.told book.new) }
    ensures cause { HasCause (B.faults book.old) (B.faults book.new) result }
{
    match node_at(alloc, book, rev, &item.path) {
        Ok(Met::Node(found)) => Ok(found),
        Ok(Met::Absent(_)) => Err(ReadError::damaged(
            RevOffset { rev, offset: 0 },
            DamageKind::ChangePath,
        )),
        Ok(Met::File(_)) => Err(ReadError::damaged(
            RevOffset { rev, offset: 0 },
            DamageKind::ChangePath,
        )),
        Err(error) => Err(error),
    }
}

/// The node that an item is about, but for a delete: that of its id; where the revision could not name that, the node at its path.
/// An item of a path at which nothing stands is ChangePath at 0.
pub(crate) fn node_of<B: Book>(
    alloc: Global,
    book: &mut B,
    rev: RevNum,
    item: &ChangeItem,
) -> Result<PlacedNode, ReadError>
    ensures told { (look : RevisionBytes) → Knows (B.told book.old).revs rev look → Answers (λ found. found.node) (NodeOf look rev item.now) result }
    ensures within { (look : RevisionBytes) → Knows (B.told book.old).revs rev look → IfOk result (λ found. (home_of found.node).rev ≤ rev) }
    ensures kept { Keeps (B.told book.old) (B.told book.new) }
    ensures cause { HasCause (B.faults book.old) (B.faults book.new) result }
{
    if is_nameable(rev, &item.id) {
        return named_node(alloc, book, &item.id);
    }
    node_there(alloc, book, rev, item)
}
