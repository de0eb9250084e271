//! The kinds of what items are about.
ghost use Rattle.std.specs.Prelude.{◌≡◌};
ghost use Rattle.fsfs_revision.specs.Damage.Causes.{HasCause};
ghost use Rattle.fsfs_revision.specs.Damage.Readings.{Answers};
ghost use Rattle.fsfs_revision.specs.Told.{RevisionBytes, Knows, Keeps};
ghost use Rattle.fsfs_stands.specs.ChangedTexts.{KindAt, KindOf, KindUnsaid, is_nameable};

use fsfs_base::{FsPath, Kind, RevNum};
use fsfs_dag::{Met, named_node, node_at};
use fsfs_noderev::{ChangeItem, NodeId, Place};
use fsfs_revision::{Book, ReadError, is_revision_id};
use std::alloc::Global;

/// The kind of what stands at a path of a revision, or this one where nothing stands there.
pub(crate) fn kind_at<B: Book>(
    alloc: Global,
    book: &mut B,
    rev: RevNum,
    path: &FsPath,
    absent: Kind,
) -> Result<Kind, ReadError>
    ensures told { (look : RevisionBytes) → Knows (B.told book.old).revs rev look → Answers (λ k. k) (KindAt look rev path.now absent) result }
    ensures kept { Keeps (B.told book.old) (B.told book.new) }
    ensures cause { HasCause (B.faults book.old) (B.faults book.new) result }
{
    match node_at(alloc, book, rev, path) {
        Ok(Met::Node(found)) => Ok(found.node.kind),
        Ok(Met::Absent(_)) => Ok(absent),
        Ok(Met::File(_)) => Ok(absent),
        Err(error) => Err(error),
    }
}

/// Whether an id is of a node-revision that this revision could name: no transaction's, and of no later revision.
pub fn is_nameable(rev: RevNum, id: &NodeId) -> bool
    ensures { result ≡ is_nameable rev id.now }
{
    match id.place {
        Place::At(made, _) => is_revision_id(id) && made <= rev,
        Place::In(_) => false,
    }
}

// The kind of what an item without one is about.
fn kind_unsaid<B: Book>(
    alloc: Global,
    book: &mut B,
    rev: RevNum,
    item: &ChangeItem,
) -> Result<Kind, ReadError>
    ensures told { (look : RevisionBytes) → Knows (B.told book.old).revs rev look → Answers (λ k. k) (KindUnsaid look rev item.now (is_nameable rev item.now.id)) result }
    ensures kept { Keeps (B.told book.old) (B.told book.new) }
    ensures cause { HasCause (B.faults book.old) (B.faults book.new) result }
{
    if is_nameable(rev, &item.id) {
        let named = named_node(alloc, book, &item.id)?;
        return Ok(named.node.kind);
    }
    kind_at(alloc, book, rev, &item.path, Kind::File)
}

/// The kind of what an item is about.
pub fn kind_of<B: Book>(
    alloc: Global,
    book: &mut B,
    rev: RevNum,
    item: &ChangeItem,
) -> Result<Kind, ReadError>
    ensures told { (look : RevisionBytes) → Knows (B.told book.old).revs rev look → Answers (λ k. k) (KindOf look rev item.now item.now.kind) result }
    ensures kept { Keeps (B.told book.old) (B.told book.new) }
    ensures cause { HasCause (B.faults book.old) (B.faults book.new) result }
{
    match item.kind {
        Some(kind) => Ok(kind),
        None => kind_unsaid(alloc, book, rev, item),
    }
}
