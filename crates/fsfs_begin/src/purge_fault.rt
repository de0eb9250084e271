//! Why a transaction may be listed still.
use fsfs_base::DiskPlace;
use thiserror::Error;

/// Why a transaction may be listed still.
#[derive(Clone, Copy, Debug, Error)]
pub enum PurgeFault {
    /// The call of the disk at this place failed, and the count of failed turns rose.
    #[error("the disk failed")]
    DiskFault(DiskPlace),
}
