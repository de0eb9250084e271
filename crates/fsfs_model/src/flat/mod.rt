//! What edits, landings and merges mean on whole trees: definitions of the flat model, and the marks of a transaction.

pub(crate) mod edit;
pub(crate) mod folded;
pub(crate) mod mark;
