//! The node at a path of a revision, or the fault that names a part of the path.
ghost use Rattle.fsfs_revision.specs.Told.{RevisionBytes, Knows, Keeps};
ghost use Rattle.fsfs_tree.specs.Answers.{last_name as last};
ghost use Rattle.std.specs.Prelude.{◌≡◌, ℕ};
ghost use Rattle.fsfs_look.specs.Paths.{IsFound};
ghost use Rattle.fsfs_look.specs.Written.{HasDiskCause, HasSinkCause};

use crate::look_error::LookError;
use fsfs_base::{FsPath, RevNum};
use fsfs_dag::{Met, PlacedNode, node_at};
use fsfs_revision::Book;
use fsfs_stands::LookFault;
use std::alloc::Global;

/// The node that stands at a path of a revision. It writes nothing.
pub fn found_at<B: Book>(
    alloc: Global,
    book: &mut B,
    rev: RevNum,
    path: &FsPath,
) -> Result<PlacedNode, LookError>
    ensures told { (look : RevisionBytes) → Knows (B.told book.old).revs rev look → IsFound look rev path.now result }
    ensures kept { Keeps (B.told book.old) (B.told book.new) }
    ensures cause { HasDiskCause (B.faults book.old) (B.faults book.new) result }
    ensures quiet { (faults : ℕ) → HasSinkCause faults faults result }
{
    match node_at(alloc, book, rev, path) {
        Ok(Met::Node(found)) => Ok(found),
        Ok(Met::Absent(names)) => Err(LookError::Fault(LookFault::NotFound { names })),
        Ok(Met::File(names)) => Err(LookError::Fault(LookFault::NotDir { names })),
        Err(error) => Err(LookError::from(error)),
    }
}

/// The last name of a path; `/` has none.
pub(crate) fn last_name(path: &FsPath) -> &str
    ensures { result.now ≡ last path.now }
{
    match path.names() {
        [.., last] => last,
        [] => "",
    }
}
