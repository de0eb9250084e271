//! Changed-path data: the changed paths of a revision, and those that a transaction's edits wrote down.

pub(crate) mod error;
pub(crate) mod item;
pub(crate) mod lines;
pub(crate) mod reading;
pub(crate) mod words;
pub(crate) mod writing;
