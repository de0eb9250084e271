//! Representations: where the texts, property lists and directories of a revision stand, and how they are checked.

pub(crate) mod digester;
pub(crate) mod digests;
pub(crate) mod frame;
pub(crate) mod header;
pub(crate) mod place;
pub(crate) mod rep_reader;
pub(crate) mod whole;
pub(crate) mod windows;
