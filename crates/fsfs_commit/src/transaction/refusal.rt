//! Why a transaction isn't landed or written.
ghost use Rattle.std.specs.Prelude.{◌≡◌};
ghost use Rattle.fsfs_commit.specs.Transaction.Refusals.{of_edit, of_txn, of_final};

use crate::FinalError;
use fsfs_base::{FsPath, RevNum};
use fsfs_draft::EditError;
use fsfs_noderev::PathLimit;
use fsfs_revision::Wrong;
use fsfs_txn::TxnError;

/// Why a transaction isn't landed or written.
#[derive(Drop)]
pub enum CommitRefusal {
    /// It clashes with this revision, on which it was to be landed, at this path first.
    Clash { head: RevNum, path: FsPath },
    /// It is used up: its bench failed before, or it was written.
    Spent,
    /// Memory was wanting.
    Memory,
    /// A call of the disk failed, by which a merge read.
    DiskFault,
    /// A call of its bench failed.
    BenchFault,
    /// The bytes of a revision are wrong.
    Wrong(Wrong),
    /// A path of it is past this limit.
    PastLimit(PathLimit),
    /// It is not whole.
    Lacking,
}

fn edit_refused(error: EditError) -> CommitRefusal
    ensures { result ≡ of_edit error }
{
    match error {
        EditError::OutOfMemory => CommitRefusal::Memory,
        EditError::DiskFault => CommitRefusal::DiskFault,
        EditError::BenchFault => CommitRefusal::BenchFault,
        EditError::Wrong(wrong) => CommitRefusal::Wrong(wrong),
        EditError::Lacking => CommitRefusal::Lacking,
    }
}

/// Why it wasn't landed.
pub(crate) fn not_landed(error: TxnError) -> CommitRefusal
    ensures { result ≡ of_txn error }
{
    match error {
        TxnError::Spent { first: _ } => CommitRefusal::Spent,
        TxnError::Fault(error) => edit_refused(error),
    }
}

/// Why its bytes weren't made.
pub(crate) fn not_made(error: FinalError) -> CommitRefusal
    ensures { result ≡ of_final error }
{
    match error {
        FinalError::OutOfMemory => CommitRefusal::Memory,
        FinalError::SinkFault => CommitRefusal::BenchFault,
        FinalError::Lacking => CommitRefusal::Lacking,
        FinalError::PastLimit(limit) => CommitRefusal::PastLimit(limit),
    }
}
