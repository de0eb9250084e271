//! A job of a script, done by turns, beside others that may add revisions meanwhile.

pub(crate) mod bases;
pub(crate) mod committing;
pub(crate) mod editing;
pub(crate) mod job;
pub(crate) mod noting;
pub(crate) mod reading;
pub(crate) mod seeing;
