//! The pieces of a new revision's bytes behind its prototype file: lists, finished node-revisions, and the end.

pub(crate) mod ending;
pub(crate) mod finishing;
pub(crate) mod laws;
pub(crate) mod lists;
pub(crate) mod naming;
pub(crate) mod nodes;
pub(crate) mod offsets;
