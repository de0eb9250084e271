//! What programs of examples share above disks in memory: runs of the programs over them, transactions that begin over any disk, and how
//! that is told.
#![tactic(auto)]

mod answers;
mod beginning;
mod runs;

pub use answers::{say_begin_fault, say_disk_fault, say_open_fault, say_stuck, say_txn};
pub use beginning::{HeldTxn, begin_on};
pub use fsfs_top::{Tool, command};
pub use runs::{Ran, look, run};
