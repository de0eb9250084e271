//! What stands above a path at which an edit is asked for.
ghost use Rattle.std.specs.Prelude.{◌≡◌, ◌++◌, ◌∷◌, []};
ghost use Rattle.fsfs_model.specs.Flat.Edits.{parent};
ghost use Rattle.fsfs_revision.specs.Told.{Keeps};
ghost use Rattle.fsfs_draft.specs.Causes.{HasDiskCause, HasBenchCause};
ghost use Rattle.fsfs_txn.specs.Seeing.{TakesAt, AboveFrom, SeesAbove};

use crate::seeing::{Seen, seen_on};
use fsfs_base::{FsPath, Kind};
use fsfs_draft::{EditError, Own, Step, next};
use fsfs_revision::Book;
use std::alloc::Global;

/// What stands above a path.
#[derive(Drop)]
pub(crate) enum Above {
    /// So many names of the path above lead to nothing.
    NotFound(usize),
    /// So many names of the path above lead to a file.
    NotDir(usize),
    /// A directory does, and counts of mergeinfo are met on the way; something stands at the path, or nothing does.
    Counted { taken: bool },
    /// A directory does, and no counts are met.
    Dir { parent: FsPath, step: Step },
}

/// Whether something stands under a name of a directory that a walk came to.
pub(crate) fn is_taken<B: Book, N: Own>(
    alloc: Global,
    book: &mut B,
    own: &N,
    dir: &Step,
    name: &str,
) -> Result<bool, EditError>
    ensures told { TakesAt (B.told book.old).revs (N.txn own.now) (N.folder own.now) dir.now name.now result }
    ensures kept { Keeps (B.told book.old) (B.told book.new) }
    ensures cause { HasDiskCause (B.faults book.old) (B.faults book.new) result }
    ensures bench { HasBenchCause (N.faults own.now) (N.faults own.now) result }
{
    match next(alloc, book, own, dir, name)? {
        None => Ok(false),
        Some(_child) => Ok(true),
    }
}

// What stands above a path, by what was seen at the directory's path.
fn above_of<B: Book, N: Own>(
    alloc: Global,
    book: &mut B,
    own: &N,
    dir: FsPath,
    name: &str,
    seen: Seen,
) -> Result<Above, EditError>
    ensures sees { AboveFrom (B.told book.old).revs (N.txn own.now) (N.folder own.now) dir name.now seen result }
    ensures kept { Keeps (B.told book.old) (B.told book.new) }
    ensures cause { HasDiskCause (B.faults book.old) (B.faults book.new) result }
    ensures bench { HasBenchCause (N.faults own.now) (N.faults own.now) result }
{
    match seen {
        Seen::Absent(depth) => Ok(Above::NotFound(depth)),
        Seen::File(depth) => Ok(Above::NotDir(depth)),
        Seen::Node { child, counted } => match child.kind {
            Kind::File => Ok(Above::NotDir(dir.depth())),
            Kind::Dir => {
                let step = child.step;
                if !counted {
                    return Ok(Above::Dir { parent: dir, step });
                }
                let taken = is_taken(alloc, book, own, &step, name)?;
                Ok(Above::Counted { taken })
            }
        },
    }
}

/// What stands above a path with this last name. What an earlier failure left unsettled is forgotten first.
pub(crate) fn look_above<B: Book, N: Own>(
    alloc: Global,
    book: &mut B,
    own: &mut N,
    path: &FsPath,
    name: &str,
) -> Result<Above, EditError>
    requires last { path.now ≡ parent path.now ++ name.now ∷ [] }
    ensures sees { SeesAbove (B.told book.old).revs (N.txn own.old) (N.settled own.old) path.now result }
    ensures whole { N.folder own.new ≡ N.settled own.new }
    ensures settled { N.settled own.new ≡ N.settled own.old }
    ensures name { N.txn own.new ≡ N.txn own.old }
    ensures bench { HasBenchCause (N.faults own.old) (N.faults own.new) result }
    ensures kept { Keeps (B.told book.old) (B.told book.new) }
    ensures cause { HasDiskCause (B.faults book.old) (B.faults book.new) result }
{
    own.forget();
    let dir = match path.prefix(alloc, path.depth().saturating_sub(1)) {
        Ok(dir) => dir,
        Err(_) => return Err(EditError::OutOfMemory),
    };
    let seen = seen_on(alloc, book, own, &dir)?;
    above_of(alloc, book, own, dir, name, seen)
}
