//! Why the bytes were not written.
ghost use Rattle.std.specs.Prelude.{◌≡◌};

use fsfs_base::Failed;
use fsfs_final::OrderError;
use fsfs_noderev::{LimitError, PathLimit};
use std::alloc::AllocError;
use thiserror::Error;

/// The bytes of a new revision were not written, or a first part of them.
#[derive(Clone, Copy, Debug, Error)]
pub enum FinalError {
    /// Nothing was written. There is no number for an offset, too.
    #[error("out of memory")]
    OutOfMemory,
    /// The sink failed, and its count of faults rose.
    #[error("the sink failed")]
    SinkFault,
    /// The folder holds no draft: an own node-revision lacks, or the kind of an item, or a delete has a flag. Nothing was written.
    #[error("the transaction is not whole")]
    Lacking,
    /// A path of an own node-revision or of an item is past this limit. Nothing was written.
    #[error("a path is past its limits")]
    PastLimit(PathLimit),
}

impl From<AllocError> for FinalError {
    ghost use Rattle.fsfs_commit.specs.declared.final_rev.error.FinalError.TheVariants.{OutOfMemory};

    ghost from_gives = { λ _ e. e ≡ OutOfMemory };

    fn from(_error: AllocError) -> FinalError {
        FinalError::OutOfMemory
    }
}

impl From<Failed> for FinalError {
    ghost use Rattle.fsfs_commit.specs.declared.final_rev.error.FinalError.TheVariants.{SinkFault};

    ghost from_gives = { λ _ e. e ≡ SinkFault };

    fn from(_error: Failed) -> FinalError {
        FinalError::SinkFault
    }
}

impl From<OrderError> for FinalError {
    ghost use Rattle.fsfs_commit.specs.FinalRev.Texts.{of_order};

    ghost from_gives = { λ error e. e ≡ of_order error };

    fn from(error: OrderError) -> FinalError {
        match error {
            OrderError::OutOfMemory => FinalError::OutOfMemory,
            OrderError::Lacking => FinalError::Lacking,
        }
    }
}

impl From<LimitError> for FinalError {
    ghost use Rattle.fsfs_commit.specs.FinalRev.Texts.{of_limit};

    ghost from_gives = { λ error e. e ≡ of_limit error };

    fn from(error: LimitError) -> FinalError {
        match error {
            LimitError::OutOfMemory => FinalError::OutOfMemory,
            LimitError::Past(limit) => FinalError::PastLimit(limit),
        }
    }
}
