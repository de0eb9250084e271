//! Limits of paths: what is written of node-revisions and changed paths has none past them.

pub(crate) mod limit;
pub(crate) mod texts;
