//! Edits of a transaction by path, each accepted or refused.

pub(crate) mod above;
pub(crate) mod copying;
pub(crate) mod deleting;
pub(crate) mod making;
pub(crate) mod properties;
pub(crate) mod sources;
pub(crate) mod texts;
