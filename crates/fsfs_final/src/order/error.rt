//! Why there is no order.
ghost use Rattle.std.specs.Prelude.{◌≡◌};

use std::alloc::AllocError;
use thiserror::Error;

/// The own node-revisions were not put in order.
#[derive(Clone, Copy, Debug, Error)]
pub enum OrderError {
    #[error("out of memory")]
    OutOfMemory,
    /// The folder holds no draft: it has nothing of an own node-revision that an entry names, or of the root.
    #[error("the transaction lacks a node-revision")]
    Lacking,
}

impl From<AllocError> for OrderError {
    ghost use Rattle.fsfs_final.specs.declared.order.error.OrderError.TheVariants.{OutOfMemory};

    ghost from_gives = { λ _ e. e ≡ OutOfMemory };

    fn from(_error: AllocError) -> OrderError {
        OrderError::OutOfMemory
    }
}
