//! The entries of a directory by their names, of which one is changed without a copy of the others.

pub(crate) mod entries;
pub(crate) mod leaf;
pub(crate) mod order;
pub(crate) mod target;
pub(crate) mod tree;
