//! The bare calls of the system on files and folders, with a record of what they did.

pub(crate) mod calls;
pub(crate) mod error;
pub(crate) mod mode;
pub(crate) mod path;
