//! The first clash of a merge: a walk over the base, the head and the transaction side by side that writes nothing.

pub(crate) mod entries;
pub(crate) mod facts;
pub(crate) mod merged;
pub(crate) mod readings;
pub(crate) mod same;
pub(crate) mod three;
pub(crate) mod turn;
pub(crate) mod walk;
