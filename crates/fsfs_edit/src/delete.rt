//! Deletes at a path, with their refusals.
ghost use Rattle.std.specs.Prelude.{◌≡◌};
ghost use Rattle.fsfs_revision.specs.Told.{Keeps};
ghost use Rattle.fsfs_edit.specs.Deleting.{IsDeletedId, DeletesIn, MeetsDelete};
ghost use Rattle.fsfs_draft.specs.Causes.{HasDiskCause, HasBenchCause};

use crate::dag_edits::deleted::take_away;
use crate::items::deleted;
use crate::way::{Target, opened_to, way_to};
use fsfs_base::FsPath;
use fsfs_draft::{Child, EditError, Own, Step};
use fsfs_noderev::NodeId;
use fsfs_revision::Book;
use std::alloc::Global;

/// What became of a delete: it was done, or why it can't be.
#[derive(Clone, Copy)]
pub enum Gone {
    Done,
    /// So many names of the directory's path lead to nothing.
    NotFound(usize),
    /// So many names of the directory's path lead to a file.
    NotDir(usize),
    /// Nothing stands there, in a directory.
    Absent,
}

// The id that an item names: that of what stood there in a revision, or an own one's predecessor; its own where it has none.
fn deleted_id<N: Own>(own: &N, step: &Step) -> NodeId
    ensures { IsDeletedId (N.folder own.now).nodes step.now result }
{
    match step {
        Step::Lasting(found) => found.node.id,
        Step::Own(id) => match own.kept(id) {
            None => *id,
            Some(kept) => kept.node.predecessor.unwrap_or(*id),
        },
    }
}

// Takes away what stands under the name, in the directory at the path.
fn delete_in<B: Book, N: Own>(
    alloc: Global,
    book: &mut B,
    own: &mut N,
    parent: &FsPath,
    name: &str,
    child: &Child,
) -> Result<(), EditError>
    ensures deletes { DeletesIn (B.told book.old).revs (N.txn own.old) (N.folder own.old) (N.settled own.old) (N.settled own.new) parent.now name.now child.now result }
    ensures name { N.txn own.new ≡ N.txn own.old }
    ensures bench { HasBenchCause (N.faults own.old) (N.faults own.new) result }
    ensures kept { Keeps (B.told book.old) (B.told book.new) }
    ensures cause { HasDiskCause (B.faults book.old) (B.faults book.new) result }
{
    let id = deleted_id(own, &child.step);
    let dir = opened_to(alloc, book, own, parent)?;
    take_away(alloc, book, own, &dir, name)?;
    let item = deleted(alloc, id, child.kind, parent, name)?;
    own.settle(item)?;
    Ok(())
}

fn delete_steps<B: Book, N: Own>(
    alloc: Global,
    book: &mut B,
    own: &mut N,
    parent: &FsPath,
    name: &str,
) -> Result<Gone, EditError>
    requires whole { N.folder own.old ≡ N.settled own.old }
    ensures meets { MeetsDelete (B.told book.old).revs (N.txn own.old) (N.settled own.old) (N.settled own.new) parent.now name.now result }
    ensures name { N.txn own.new ≡ N.txn own.old }
    ensures bench { HasBenchCause (N.faults own.old) (N.faults own.new) result }
    ensures kept { Keeps (B.told book.old) (B.told book.new) }
    ensures cause { HasDiskCause (B.faults book.old) (B.faults book.new) result }
{
    match way_to(alloc, book, own, parent, name)? {
        Target::NotFound(depth) => Ok(Gone::NotFound(depth)),
        Target::NotDir(depth) => Ok(Gone::NotDir(depth)),
        Target::Free => Ok(Gone::Absent),
        Target::Taken(child) => {
            delete_in(alloc, book, own, parent, name, &child)?;
            Ok(Gone::Done)
        }
    }
}

/// Takes away what stands under a name of the directory at a path, and all below it. It is refused where the path leads to no
/// directory, or where nothing stands there, in this order. A refusal leaves the transaction as it was, and so does every failure
/// but the bench's.
pub fn delete_at<B: Book, N: Own>(
    alloc: Global,
    book: &mut B,
    own: &mut N,
    parent: &FsPath,
    name: &str,
) -> Result<Gone, EditError>
    requires whole { N.folder own.old ≡ N.settled own.old }
    ensures meets { MeetsDelete (B.told book.old).revs (N.txn own.old) (N.settled own.old) (N.settled own.new) parent.now name.now result }
    ensures whole { N.folder own.new ≡ N.settled own.new }
    ensures name { N.txn own.new ≡ N.txn own.old }
    ensures bench { HasBenchCause (N.faults own.old) (N.faults own.new) result }
    ensures kept { Keeps (B.told book.old) (B.told book.new) }
    ensures cause { HasDiskCause (B.faults book.old) (B.faults book.new) result }
{
    let gone = delete_steps(alloc, book, own, parent, name);
    own.forget();
    gone
}
