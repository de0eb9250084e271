//! A repository that passes share: opened, lent to its passes, and closed.

pub(crate) mod opening;
pub(crate) mod repo;
pub(crate) mod sharing;
