//! Why a call of a transaction gave nothing.
use fsfs_base::Failed;
use fsfs_draft::EditError;
use thiserror::Error;

/// Why a call of a transaction gave nothing.
#[derive(Clone, Copy, Debug, Error)]
pub enum TxnError {
    /// Its bench failed in an earlier call, the first of which is told: nothing is known of its files, and nothing was done.
    #[error("the transaction's bench has failed")]
    Spent { first: Failed },
    /// The call failed.
    #[error("the edit failed")]
    Fault(EditError),
}
