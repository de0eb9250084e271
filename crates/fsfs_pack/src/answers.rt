//! What packing comes to.
use fsfs_base::{DiskPlace, RevNum, SmallFault};
use thiserror::Error;

/// What packing came to, where nothing failed.
#[derive(Clone, Copy, Debug)]
pub enum PackEnd {
    /// There was no full shard that isn't packed.
    Nothing,
    /// So many shards were packed, and none that is full is left. So many own files of their revisions couldn't be removed: nobody reads
    /// them.
    Packed { shards: u64, left: u64 },
}

/// Why packing stopped. Shards that were packed before stay packed.
#[derive(Clone, Copy, Debug, Error)]
pub enum PackFault {
    /// The write lock is stuck at this place.
    #[error("the lock is stuck")]
    Stuck(DiskPlace),
    /// A call of the disk failed. At `RenameFloor` and `FirmFloor` that left the lock stuck.
    #[error("the disk failed")]
    DiskFault(DiskPlace),
    /// The bench failed.
    #[error("the bench failed")]
    BenchFault,
    /// There is no file of this revision.
    #[error("revision {0} is missing")]
    Missing(RevNum),
    /// A small file is not in its format.
    #[error("a small file is damaged")]
    Small(SmallFault),
    /// Memory was wanting, before the shard's first change of the disk.
    #[error("out of memory")]
    Memory,
}

/// How packing ended.
#[derive(Clone, Copy, Debug)]
pub struct PackDone {
    /// Of how many shards the floor above them was renamed, whatever came then.
    pub renamed: u64,
    pub end: Result<PackEnd, PackFault>,
}
