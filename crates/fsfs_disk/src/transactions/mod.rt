//! The transactions of a repository: which there are, and their removal.

pub(crate) mod listing;
pub(crate) mod removing;
