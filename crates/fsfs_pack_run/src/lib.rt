//! `svnadmin pack` on a disk: the repository is opened, and its full shards are packed.
#![tactic(auto)]

mod running;

pub use running::{Packed, fault_of, pack_disk, pack_from};
