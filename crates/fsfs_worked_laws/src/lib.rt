//! Worked revisions: that their bytes show the trees that they were written for.
#![tactic(auto)]

mod laws;

pub use laws::a_directory_is_shown;
