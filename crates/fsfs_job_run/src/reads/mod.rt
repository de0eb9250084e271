//! Jobs that read: the text of a file is read for its size and its digest.

pub(crate) mod base_text;
pub(crate) mod jobs;
pub(crate) mod text;
