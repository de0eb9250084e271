//! The items of a transaction's `changes` file folded into the changed paths of a revision.

pub(crate) mod folding;
pub(crate) mod keys;
pub(crate) mod lasting;
pub(crate) mod said;
