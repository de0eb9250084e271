//! Sound revisions: the rules of what a revision wrote itself, and that they are right both ways. Where each revision keeps them,
//! the bytes and the property files of all revisions show a history; where something is wrong with a revision, they show none.
//!
//! These are definitions, in `specs`, and laws about them; the functions that check by them stand in the crate above.
#![tactic(auto)]

mod laws;

pub use laws::{histories_have_no_damage, parts_are_not_ahead, sound_revisions_show_a_history};
