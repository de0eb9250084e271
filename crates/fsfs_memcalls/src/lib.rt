//! The bare calls of the system, made in memory, for tests: they tell all that they did, can fail where it is chosen, and can be
//! stopped by a crash.
#![tactic(auto)]

mod calls;
mod crash;
mod emptiness;
mod listing;
mod made;
mod paths;
mod standing;
mod telling;

pub use calls::{MemCalls, MemOpenFile};
