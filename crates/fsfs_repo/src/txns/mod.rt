//! What a pass does with its transactions, by turns: they begin, are listed, committed and purged.

pub(crate) mod answers;
pub(crate) mod beginning;
pub(crate) mod committing;
pub(crate) mod ending;
pub(crate) mod listing;
pub(crate) mod purging;
