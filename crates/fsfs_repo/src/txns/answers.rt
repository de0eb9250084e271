//! What a commit answers.
ghost use Rattle.std.specs.Prelude.{◌≡◌};
ghost use Rattle.fsfs_repo.specs.Txns.Fates.{of_fault, of_refusal};

use fsfs_base::{DiskPlace, FsPath, RevNum};
use fsfs_commit::{CommitFault, CommitRefusal};
use fsfs_noderev::PathLimit;
use fsfs_revision::Wrong;

/// Why nothing was added, of a transaction that is handed back.
#[derive(Drop)]
pub enum CommitBar {
    /// It clashes with this revision, the youngest, first at this path.
    Conflict { path: FsPath, head: RevNum },
    /// The youngest revision is the last that there may be.
    RevsFull,
    /// The write lock is stuck at this place.
    Stuck(DiskPlace),
    /// The bytes of a revision that the merge reads are wrong.
    Wrong(Wrong),
    /// A path of it is past this limit.
    PastLimit(PathLimit),
    /// It is not whole.
    Lacking,
    /// Memory was wanting.
    Memory,
}

/// What became of a commit, and of its transaction.
#[derive(Drop)]
pub enum CommitAnswer<X> {
    /// It is this revision, firm, and the youngest. What is left of its transaction is purged; where that failed (`false`), it may be
    /// listed still.
    Committed { rev: RevNum, purged: bool },
    /// Nothing was added. The transaction stands on the head of its last landing, or where it stood.
    Barred { bar: CommitBar, txn: X },
    /// The disk failed at this place: of the section, or `Read` in a merge. Nothing was added. The transaction is no more; it may be
    /// listed still.
    DiskFault { place: DiskPlace },
    /// The transaction's bench failed. Nothing was added. It is no more; it may be listed still.
    BenchFault,
}

/// What becomes of a transaction whose commit added nothing: it is handed back, or it is no more.
#[derive(Drop)]
pub(crate) enum Fate {
    Barred(CommitBar),
    DiskFault(DiskPlace),
    BenchFault,
}

fn refused_fate(refusal: CommitRefusal) -> Fate
    ensures { result ≡ of_refusal refusal }
{
    match refusal {
        CommitRefusal::Clash { head, path } => Fate::Barred(CommitBar::Conflict { path, head }),
        CommitRefusal::Memory => Fate::Barred(CommitBar::Memory),
        CommitRefusal::Wrong(wrong) => Fate::Barred(CommitBar::Wrong(wrong)),
        CommitRefusal::PastLimit(limit) => Fate::Barred(CommitBar::PastLimit(limit)),
        CommitRefusal::Lacking => Fate::Barred(CommitBar::Lacking),
        CommitRefusal::DiskFault => Fate::DiskFault(DiskPlace::Read),
        CommitRefusal::Spent => Fate::BenchFault,
        CommitRefusal::BenchFault => Fate::BenchFault,
    }
}

/// What comes of a fault.
pub(crate) fn fate_of(fault: CommitFault<CommitRefusal>) -> Fate
    ensures { result ≡ of_fault fault }
{
    match fault {
        CommitFault::RevsFull => Fate::Barred(CommitBar::RevsFull),
        CommitFault::Stuck(place) => Fate::Barred(CommitBar::Stuck(place)),
        CommitFault::Refused(refusal) => refused_fate(refusal),
        CommitFault::DiskFault(place) => Fate::DiskFault(DiskPlace::Commit(place)),
    }
}
