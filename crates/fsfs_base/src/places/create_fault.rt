//! Why a repository wasn't made.
ghost use Rattle.std.specs.Prelude.{◌≡◌};

use crate::places::place::DiskPlace;
use std::alloc::AllocError;
use thiserror::Error;

/// Why a repository wasn't made.
#[derive(Clone, Copy, Debug, Error)]
pub enum CreateFault {
    /// There is one.
    #[error("there is a repository")]
    AlreadyRepo,
    /// A call of the disk failed.
    #[error("the disk failed")]
    DiskFault(DiskPlace),
    /// Memory was wanting, before anything was written.
    #[error("out of memory")]
    Memory,
}

impl From<AllocError> for CreateFault {
    ghost use Rattle.fsfs_base.specs.declared.places.create_fault.CreateFault.TheVariants.{Memory};

    ghost from_gives = { λ _ e. e ≡ Memory };

    fn from(_: AllocError) -> CreateFault {
        CreateFault::Memory
    }
}
