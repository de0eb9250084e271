//! The own node-revisions of a transaction, held in memory and written into its bench.

pub(crate) mod changed;
pub(crate) mod copies;
pub(crate) mod edit_steps;
pub(crate) mod files;
pub(crate) mod held_nodes;
pub(crate) mod key_set;
pub(crate) mod keys;
pub(crate) mod nodes;
pub(crate) mod texts;
pub(crate) mod writing;
