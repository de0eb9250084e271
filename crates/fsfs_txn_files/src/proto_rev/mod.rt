//! Texts in a transaction's prototype revision file.

pub(crate) mod appending;
pub(crate) mod laws;
pub(crate) mod pieces;
pub(crate) mod taken;
pub(crate) mod text_error;
