//! Why no name was drawn for a transaction.
use fsfs_base::{BeginPlace, SmallFault};

/// Why no name was drawn for a transaction.
#[derive(Clone, Copy)]
pub enum NameFault {
    /// `db/txn-current` is not in its format.
    Small(SmallFault),
    /// `db/txn-current` has the last number that there is, thirteen `z`.
    NamesFull,
    /// A call of the disk failed.
    DiskFault(BeginPlace),
    /// Memory was wanting, before anything was written.
    Memory,
}
