//! The edits of a job, done in a transaction one after another up to the first that is refused.

pub(crate) mod copying;
pub(crate) mod deleting;
pub(crate) mod edits;
pub(crate) mod failures;
pub(crate) mod making;
pub(crate) mod properties;
pub(crate) mod slice_source;
pub(crate) mod telling;
pub(crate) mod texts;
