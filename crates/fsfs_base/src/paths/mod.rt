//! Paths in a repository: which texts are paths, and what is wrong with one that is none.

pub(crate) mod bad_path;
pub(crate) mod path;
pub(crate) mod path_text;
