//! The world of the pure machine: its parts and steps, what each step may leave and answer, what holds after each,
//! and the theorem that every run keeps one history.
#![tactic(auto)]

mod contents;
pub mod files;
pub mod labels;
mod line;
mod machine;
mod marks;
pub mod packs;
pub mod passes;
pub mod section;
mod theorem;

pub use contents::{Bytes, Contents, FileName, NameChange, Offsets, Part, Parts};
pub use line::Line;
pub use machine::{
    Coming, Drawn, Entry, Lock, Marks, Names, Numbers, Outcome, Pass, Picks, Places, Recorded,
    Section, Step, Txn, Went,
};
pub use marks::{set_edited, set_merged};
pub use theorem::every_run_keeps_one_history;
