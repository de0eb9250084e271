//! The pure machine as a value that runs: one history over every list of disk calls, faults, crashes and openings.
#![tactic(auto)]

mod calls;
mod commits;
mod labels;
mod openings;
mod reads;
mod state;
mod txns;

pub use fsfs_base::{BeginPlace, CommitPlace, DiskPlace, PackPlace};
pub use fsfs_machine::{
    Bytes, Coming, Contents, Drawn, Entry, FileName, Line, Lock, Marks, NameChange, Names, Numbers,
    Offsets, Outcome, Part, Parts, Pass, Picks, Places, Recorded, Section, Step, Txn, Went,
    every_run_keeps_one_history,
};
pub use state::State;
