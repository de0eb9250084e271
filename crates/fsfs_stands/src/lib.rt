//! Which history the files of a repository stand for: each revision's bytes show its tree, its changed-path data and its property
//! file are its own, and the node-revisions hang together by the rules of ids.
//!
//! These are definitions, in `specs`, and laws about them. The files are those of the libsvn_fs_fs structure file for format 4.
//! What `svnlook` prints of a revision, as readings of the bytes of all revisions: the text of a tree, and the text of a file;
//! why such a text ends where it ends; and how these are texts of the flat tree that the bytes show.
//!
//! These are definitions, in `specs`, and laws about them; the functions that print stand in the crate above. The texts are
//! those of Subversion's own `svnlook`.
//! The history of a path as it is read: back along predecessors and across copies.
//! The changed paths of a revision, as they are read and as `svnlook changed` prints them: definitions, in `specs`, and laws.
//!
//! The text is that of Subversion's own `svnlook`.
//! What files stand for is a history of the flat model, and is read of the revisions up to the youngest alone.
#![tactic(auto)]

mod changed_laws;
mod flat_history_laws;
mod histories_laws;
mod laws;
mod look_fault;
mod printed_laws;

pub use changed_laws::{changed_paths_are_flat, changed_paths_have_one_text};
pub use flat_history_laws::{
    later_files_are_not_seen, path_histories_are_flat, what_files_stand_for_is_a_history,
};
pub use histories_laws::{
    histories_are_by_the_trees, histories_have_one_text, steps_are_by_the_trees,
};
pub use laws::{
    creations_hold_new, new_repositories_stand, one_history_is_shown, the_first_history_is_shown,
};
pub use look_fault::LookFault;
pub use printed_laws::{looks_have_one_text, texts_are_by_the_tree};
