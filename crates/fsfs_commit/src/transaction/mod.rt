//! A transaction that is committed: what a commit lands and writes.

pub(crate) mod dating;
pub(crate) mod ended_txn;
pub(crate) mod laws;
pub(crate) mod making;
pub(crate) mod open_txn;
pub(crate) mod refusal;
pub(crate) mod standing;
pub(crate) mod txn_draft;
