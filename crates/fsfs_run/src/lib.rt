//! The run that the programs share, over the real outside.
#![tactic(auto)]

mod mains;

pub use fsfs_top::Tool;
pub use mains::run;
