//! At which call of a disk something failed, and why a repository isn't made or opened.

pub(crate) mod create_fault;
pub(crate) mod open_fault;
pub(crate) mod place;
