//! Edits of one directory or one node, over a transaction's own node-revisions: what stands in its tree becomes its own, and something
//! is put into one directory or taken away there.

pub(crate) mod copied;
pub(crate) mod deleted;
pub(crate) mod ids;
pub(crate) mod made;
pub(crate) mod mutable;
pub(crate) mod path_mutable;
pub(crate) mod set;
pub(crate) mod successor;
