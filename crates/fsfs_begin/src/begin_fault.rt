//! Why no transaction was begun.
use fsfs_base::{DiskPlace, RevNum, SmallFault};
use fsfs_revision::Wrong;
use thiserror::Error;

/// Why no transaction was begun. No failure leaves the lock taken or stuck.
#[derive(Clone, Copy, Debug, Error)]
pub enum BeginFault {
    /// The base is above the youngest revision.
    #[error("there is no revision {asked}; the youngest is {youngest}")]
    NoRev { asked: RevNum, youngest: RevNum },
    /// The write lock is stuck at this place.
    #[error("the lock is stuck")]
    Stuck(DiskPlace),
    /// `db/txn-current` is not in its format.
    #[error("db/txn-current is damaged")]
    Small(SmallFault),
    /// `db/txn-current` has the last number that there is, thirteen `z`.
    #[error("all names of transactions are in use")]
    NamesFull,
    /// The bytes that the root of the base is read from are wrong.
    #[error("the base is damaged")]
    Wrong(Wrong),
    /// A call of the disk failed.
    #[error("the disk failed")]
    DiskFault(DiskPlace),
    /// The bench that the disk made failed.
    #[error("the bench failed")]
    BenchFault,
    /// Memory was wanting, before there was a bench.
    #[error("out of memory")]
    Memory,
}
