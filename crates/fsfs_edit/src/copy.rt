//! Putting a copy at a path, with its refusals.
ghost use Rattle.std.specs.Prelude.{◌≡◌, ℕ};
ghost use Rattle.fsfs_revision.specs.Told.{Keeps};
ghost use Rattle.fsfs_edit.specs.Copying.{IsSource, FindsSource, CopiesIn, CopiesFree, MeetsCopy};
ghost use Rattle.fsfs_draft.specs.Causes.{HasDiskCause, HasBenchCause};

use crate::dag_edits::copied::{copy_to, same_source};
use crate::items::added;
use crate::way::{Target, opened_to, way_to};
use fsfs_base::{FsPath, RevNum};
use fsfs_dag::{Met, PlacedNode, node_at};
use fsfs_draft::{EditError, Own, room_in};
use fsfs_noderev::{CopySource, NodeRev};
use fsfs_revision::Book;
use std::alloc::Global;

/// What became of a copy: it was put, or why it can't be.
#[derive(Clone, Copy)]
pub enum Copied {
    Done,
    /// So many names of the directory's path lead to nothing.
    NotFound(usize),
    /// So many names of the directory's path lead to a file.
    NotDir(usize),
    /// Something stands there.
    Exists,
    /// There is no such revision; this is the youngest.
    NoRev(RevNum),
    /// So many names of the source's path lead to nothing.
    SourceNotFound(usize),
    /// So many names of the source's path lead to a file.
    SourceNotDir(usize),
    /// The directory has 1,048,576 entries, or more.
    TooManyEntries,
}

/// What stands where a copy is to be taken.
#[derive(Drop)]
enum Source {
    NoRev(RevNum),
    Absent(usize),
    File(usize),
    Node(PlacedNode),
}

fn source_at<B: Book>(alloc: Global, book: &mut B, from: &CopySource) -> Result<Source, EditError>
    ensures finds { FindsSource (B.told book.old).revs (B.told book.old).youngest from.now result }
    ensures kept { Keeps (B.told book.old) (B.told book.new) }
    ensures cause { HasDiskCause (B.faults book.old) (B.faults book.new) result }
    ensures quiet { (faults : ℕ) → HasBenchCause faults faults result }
{
    let Ok(youngest) = book.youngest() else {
        return Err(EditError::DiskFault);
    };
    if youngest.get() < from.rev.get() {
        return Ok(Source::NoRev(youngest));
    }
    match node_at(alloc, book, from.rev, &from.path)? {
        Met::Absent(depth) => Ok(Source::Absent(depth)),
        Met::File(depth) => Ok(Source::File(depth)),
        Met::Node(found) => Ok(Source::Node(found)),
    }
}

// Puts the copy where the directory has nothing of the name.
fn copy_in<B: Book, N: Own>(
    alloc: Global,
    book: &mut B,
    own: &mut N,
    parent: &FsPath,
    name: &str,
    source: &NodeRev,
    from: &CopySource,
) -> Result<Copied, EditError>
    ensures copies { CopiesIn (B.told book.old).revs (N.txn own.old) (N.folder own.old) (N.settled own.old) (N.settled own.new) parent.now name.now source.now from.now result }
    ensures name { N.txn own.new ≡ N.txn own.old }
    ensures bench { HasBenchCause (N.faults own.old) (N.faults own.new) result }
    ensures kept { Keeps (B.told book.old) (B.told book.new) }
    ensures cause { HasDiskCause (B.faults book.old) (B.faults book.new) result }
{
    let dir = opened_to(alloc, book, own, parent)?;
    let room = room_in(alloc, book, own, &dir)?;
    if !room {
        return Ok(Copied::TooManyEntries);
    }
    let id = copy_to(alloc, book, own, &dir, name, source, from)?;
    let origin = same_source(from)?;
    let item = added(alloc, id, source.kind, parent, name, Some(origin))?;
    own.settle(item)?;
    Ok(Copied::Done)
}

// Looks for the source, and puts the copy where the directory has nothing of the name.
fn copy_free<B: Book, N: Own>(
    alloc: Global,
    book: &mut B,
    own: &mut N,
    parent: &FsPath,
    name: &str,
    from: &CopySource,
) -> Result<Copied, EditError>
    ensures copies { CopiesFree (B.told book.old).revs (B.told book.old).youngest (N.txn own.old) (N.folder own.old) (N.settled own.old) (N.settled own.new) parent.now name.now from.now result }
    ensures name { N.txn own.new ≡ N.txn own.old }
    ensures bench { HasBenchCause (N.faults own.old) (N.faults own.new) result }
    ensures kept { Keeps (B.told book.old) (B.told book.new) }
    ensures cause { HasDiskCause (B.faults book.old) (B.faults book.new) result }
{
    match source_at(alloc, book, from)? {
        Source::NoRev(youngest) => Ok(Copied::NoRev(youngest)),
        Source::Absent(depth) => Ok(Copied::SourceNotFound(depth)),
        Source::File(depth) => Ok(Copied::SourceNotDir(depth)),
        Source::Node(found) => copy_in(alloc, book, own, parent, name, &found.node, from),
    }
}

fn copy_steps<B: Book, N: Own>(
    alloc: Global,
    book: &mut B,
    own: &mut N,
    parent: &FsPath,
    name: &str,
    from: &CopySource,
) -> Result<Copied, EditError>
    requires whole { N.folder own.old ≡ N.settled own.old }
    ensures meets { MeetsCopy (B.told book.old).revs (B.told book.old).youngest (N.txn own.old) (N.settled own.old) (N.settled own.new) parent.now name.now from.now result }
    ensures name { N.txn own.new ≡ N.txn own.old }
    ensures bench { HasBenchCause (N.faults own.old) (N.faults own.new) result }
    ensures kept { Keeps (B.told book.old) (B.told book.new) }
    ensures cause { HasDiskCause (B.faults book.old) (B.faults book.new) result }
{
    match way_to(alloc, book, own, parent, name)? {
        Target::NotFound(depth) => Ok(Copied::NotFound(depth)),
        Target::NotDir(depth) => Ok(Copied::NotDir(depth)),
        Target::Taken(_child) => Ok(Copied::Exists),
        Target::Free => copy_free(alloc, book, own, parent, name, from),
    }
}

/// Puts a copy of what stands at a path of a revision under a name of the directory at a path; nothing below is copied. It is
/// refused where the path leads to no directory, where something stands there, where there is no such revision, where nothing
/// stands at the source, or where the directory is full, in this order. A refusal leaves the transaction as it was, and so does every failure but the bench's.
pub fn copy_at<B: Book, N: Own>(
    alloc: Global,
    book: &mut B,
    own: &mut N,
    parent: &FsPath,
    name: &str,
    from: &CopySource,
) -> Result<Copied, EditError>
    requires whole { N.folder own.old ≡ N.settled own.old }
    ensures meets { MeetsCopy (B.told book.old).revs (B.told book.old).youngest (N.txn own.old) (N.settled own.old) (N.settled own.new) parent.now name.now from.now result }
    ensures whole { N.folder own.new ≡ N.settled own.new }
    ensures name { N.txn own.new ≡ N.txn own.old }
    ensures bench { HasBenchCause (N.faults own.old) (N.faults own.new) result }
    ensures kept { Keeps (B.told book.old) (B.told book.new) }
    ensures cause { HasDiskCause (B.faults book.old) (B.faults book.new) result }
{
    let copied = copy_steps(alloc, book, own, parent, name, from);
    own.forget();
    copied
}
