//! The top call of the repository programs.
#![tactic(auto)]

mod checked;
mod jobs;
mod look;
mod output;
mod packed;
mod packing;
mod top;
mod txns;

pub use fsfs_cli::{Fault, Tool};
pub use top::command;
