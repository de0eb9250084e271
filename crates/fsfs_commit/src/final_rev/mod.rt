//! The bytes of a new revision of a whole draft: what follows the texts in its prototype file, and what comes of them.

pub(crate) mod error;
pub(crate) mod items;
pub(crate) mod laws;
pub(crate) mod next;
pub(crate) mod writing;
