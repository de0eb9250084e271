//! The own node-revisions of a transaction, in the order in which they are put into a new revision.

pub(crate) mod children;
pub(crate) mod error;
pub(crate) mod nodes;
