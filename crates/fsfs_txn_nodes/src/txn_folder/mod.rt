//! What the files of a transaction's folder say of it: which changes of files go with which steps of an edit.

pub(crate) mod file_changes;
pub(crate) mod ids;
pub(crate) mod laws;
pub(crate) mod same;
