//! The source of a copy, and whether it has counts of mergeinfo.
ghost use Rattle.std.specs.Prelude.{◌≡◌, ℕ};
ghost use Rattle.fsfs_revision.specs.Told.{Keeps};
ghost use Rattle.fsfs_draft.specs.Causes.{HasDiskCause, HasBenchCause};
ghost use Rattle.fsfs_txn.specs.Edits.Sources.{is_plain, FindsSource};

use crate::seeing::has_counts;
use fsfs_base::RevNum;
use fsfs_dag::{Met, node_at};
use fsfs_draft::EditError;
use fsfs_noderev::CopySource;
use fsfs_revision::Book;
use std::alloc::Global;

/// What stands where a copy is to be taken.
#[derive(Drop)]
pub(crate) enum Source {
    /// There is no such revision; this is the youngest.
    NoRev(RevNum),
    /// So many names of the path lead to nothing.
    NotFound(usize),
    /// So many names of the path lead to a file.
    NotDir(usize),
    /// Something does, with counts of mergeinfo or without.
    Node { counted: bool },
}

/// Whether it is there, and has no counts of mergeinfo.
pub(crate) fn is_plain(source: &Source) -> bool
    ensures { result ≡ is_plain source.now }
{
    match source {
        Source::NoRev(_) => false,
        Source::NotFound(_) => false,
        Source::NotDir(_) => false,
        Source::Node { counted } => !*counted,
    }
}

/// What stands where a copy is to be taken.
pub(crate) fn source_at<B: Book>(
    alloc: Global,
    book: &mut B,
    from: &CopySource,
) -> Result<Source, EditError>
    ensures finds { FindsSource (B.told book.old).revs (B.told book.old).youngest from.now result }
    ensures kept { Keeps (B.told book.old) (B.told book.new) }
    ensures cause { HasDiskCause (B.faults book.old) (B.faults book.new) result }
    ensures quiet { (faults : ℕ) → HasBenchCause faults faults result }
{
    let Ok(youngest) = book.youngest() else {
        return Err(EditError::DiskFault);
    };
    if youngest.get() < from.rev.get() {
        return Ok(Source::NoRev(youngest));
    }
    match node_at(alloc, book, from.rev, &from.path)? {
        Met::Absent(depth) => Ok(Source::NotFound(depth)),
        Met::File(depth) => Ok(Source::NotDir(depth)),
        Met::Node(found) => Ok(Source::Node {
            counted: has_counts(&found.node),
        }),
    }
}
