//! Making a new node at a path, with its refusals.
ghost use Rattle.std.specs.Prelude.{◌≡◌};
ghost use Rattle.fsfs_revision.specs.Told.{Keeps};
ghost use Rattle.fsfs_edit.specs.Making.{MakesIn, MeetsMake};
ghost use Rattle.fsfs_draft.specs.Causes.{HasDiskCause, HasBenchCause};

use crate::dag_edits::made::make_node;
use crate::items::added;
use crate::way::{Target, opened_to, way_to};
use fsfs_base::{FsPath, Kind};
use fsfs_draft::{EditError, Own, room_in};
use fsfs_revision::Book;
use std::alloc::Global;

/// What became of a new node: it was made, or why it can't be.
#[derive(Clone, Copy, Debug, PartialEq, Eq)]
pub enum Made {
    Done,
    /// So many names of the directory's path lead to nothing.
    NotFound(usize),
    /// So many names of the directory's path lead to a file.
    NotDir(usize),
    /// Something stands there.
    Exists,
    /// The directory has 1,048,576 entries, or more.
    TooManyEntries,
}

// Makes the node where the directory has nothing of the name.
fn make_in<B: Book, N: Own>(
    alloc: Global,
    book: &mut B,
    own: &mut N,
    parent: &FsPath,
    name: &str,
    kind: Kind,
) -> Result<Made, EditError>
    ensures makes { MakesIn (B.told book.old).revs (N.txn own.old) (N.folder own.old) (N.settled own.old) (N.settled own.new) parent.now name.now kind result }
    ensures name { N.txn own.new ≡ N.txn own.old }
    ensures bench { HasBenchCause (N.faults own.old) (N.faults own.new) result }
    ensures kept { Keeps (B.told book.old) (B.told book.new) }
    ensures cause { HasDiskCause (B.faults book.old) (B.faults book.new) result }
{
    let dir = opened_to(alloc, book, own, parent)?;
    let room = room_in(alloc, book, own, &dir)?;
    if !room {
        return Ok(Made::TooManyEntries);
    }
    let id = make_node(alloc, book, own, &dir, name, kind)?;
    let item = added(alloc, id, kind, parent, name, None)?;
    own.settle(item)?;
    Ok(Made::Done)
}

fn make_steps<B: Book, N: Own>(
    alloc: Global,
    book: &mut B,
    own: &mut N,
    parent: &FsPath,
    name: &str,
    kind: Kind,
) -> Result<Made, EditError>
    requires whole { N.folder own.old ≡ N.settled own.old }
    ensures meets { MeetsMake (B.told book.old).revs (N.txn own.old) (N.settled own.old) (N.settled own.new) parent.now name.now kind result }
    ensures name { N.txn own.new ≡ N.txn own.old }
    ensures bench { HasBenchCause (N.faults own.old) (N.faults own.new) result }
    ensures kept { Keeps (B.told book.old) (B.told book.new) }
    ensures cause { HasDiskCause (B.faults book.old) (B.faults book.new) result }
{
    match way_to(alloc, book, own, parent, name)? {
        Target::NotFound(depth) => Ok(Made::NotFound(depth)),
        Target::NotDir(depth) => Ok(Made::NotDir(depth)),
        Target::Taken(_child) => Ok(Made::Exists),
        Target::Free => make_in(alloc, book, own, parent, name, kind),
    }
}

/// Makes an empty node under a name of the directory at a path. It is refused where the path leads to no directory, where
/// something stands there, or where the directory is full, in this order. A refusal leaves the transaction as it was, and so does every failure but the bench's.
pub fn make_at<B: Book, N: Own>(
    alloc: Global,
    book: &mut B,
    own: &mut N,
    parent: &FsPath,
    name: &str,
    kind: Kind,
) -> Result<Made, EditError>
    requires whole { N.folder own.old ≡ N.settled own.old }
    ensures meets { MeetsMake (B.told book.old).revs (N.txn own.old) (N.settled own.old) (N.settled own.new) parent.now name.now kind result }
    ensures whole { N.folder own.new ≡ N.settled own.new }
    ensures name { N.txn own.new ≡ N.txn own.old }
    ensures bench { HasBenchCause (N.faults own.old) (N.faults own.new) result }
    ensures kept { Keeps (B.told book.old) (B.told book.new) }
    ensures cause { HasDiskCause (B.faults book.old) (B.faults book.new) result }
{
    let made = make_steps(alloc, book, own, parent, name, kind);
    own.forget();
    made
}
