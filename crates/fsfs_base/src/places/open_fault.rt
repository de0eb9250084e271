//! Why a repository wasn't opened.
use crate::SmallFault;
use crate::places::place::DiskPlace;
use thiserror::Error;

/// Why a repository wasn't opened.
#[derive(Clone, Copy, Debug, Error)]
pub enum OpenFault {
    /// There is none of this type of filesystem.
    #[error("there is no repository")]
    NotRepo,
    /// It has another format.
    #[error("the repository has another format")]
    OtherFormat(u64),
    /// It is not sharded.
    #[error("the repository is not sharded")]
    Linear,
    /// A small file is not in its format.
    #[error("a small file is damaged")]
    Small(SmallFault),
    /// A call of the disk failed.
    #[error("the disk failed")]
    DiskFault(DiskPlace),
    /// Memory was wanting.
    #[error("out of memory")]
    Memory,
}
