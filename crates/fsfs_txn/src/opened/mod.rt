//! Nodes of a transaction that were opened: what was read of the revisions on the way to them is kept, so that a text or a property
//! is put there without reading anything.

pub(crate) mod known;
pub(crate) mod laws;
pub(crate) mod opening;
pub(crate) mod properties;
pub(crate) mod reached;
pub(crate) mod reaching;
pub(crate) mod texts;
