//! Full shards become packs, beside commits and readers.
#![tactic(auto)]

mod answers;
mod copying;
mod packing;
mod removing;
mod section;
mod shard;
mod writing;

pub use answers::{PackDone, PackEnd, PackFault};
pub use packing::pack;
