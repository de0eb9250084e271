//! The repository that runs, with one owner: opened, read, changed by transactions, and closed.

pub(crate) mod beginning;
pub(crate) mod committing;
pub(crate) mod listing;
pub(crate) mod packing;
pub(crate) mod purging;
pub(crate) mod reading;
pub(crate) mod repo;
