//! Why a look at a revision prints nothing, or no more.
ghost use Rattle.std.specs.Prelude.{◌≡◌};

use fsfs_revision::ReadError;
use fsfs_stands::LookFault;
use std::alloc::AllocError;
use thiserror::Error;

/// Why a look ended before its end.
#[derive(Clone, Copy, Debug, Error)]
pub enum LookError {
    #[error("out of memory")]
    OutOfMemory,
    /// A call of the disk failed, and the book's count of faults rose.
    #[error("the disk failed")]
    DiskFault,
    /// A write failed, and the sink's count of faults rose.
    #[error("the output failed")]
    WriteFault,
    #[error("the look is refused")]
    Fault(LookFault),
}

impl From<AllocError> for LookError {
    ghost use Rattle.fsfs_look.specs.declared.look_error.LookError.TheVariants.{OutOfMemory};

    ghost from_gives = { λ _ e. e ≡ OutOfMemory };

    fn from(_error: AllocError) -> LookError {
        LookError::OutOfMemory
    }
}

impl From<ReadError> for LookError {
    ghost use Rattle.fsfs_look.specs.Errors.{of_read};

    ghost from_gives = { λ error e. e ≡ of_read error };

    fn from(error: ReadError) -> LookError {
        match error {
            ReadError::OutOfMemory => LookError::OutOfMemory,
            ReadError::DiskFault => LookError::DiskFault,
            ReadError::Wrong(wrong) => LookError::Fault(LookFault::Wrong(wrong)),
        }
    }
}
