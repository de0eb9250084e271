//! The laws between ids and marks: what a merge sees by comparing ids is what the flat model says by numbers and marks.
//! What the files of a transaction show: its tree and its marks over the trees of the revisions, and how its own
//! node-revisions hang together with theirs.
//!
//! These are definitions, in `specs`, and laws about them. The functions that edit transactions stand in the crates above.
//! The files are those of the libsvn_fs_fs structure file, "Transaction layout"; the rules of copy parts and copy roots are
//! this project's profile.
//! What a transaction has made itself, its own node-revisions, and what stands in its tree.
#![tactic(auto)]

mod drafts_laws;
mod entries;
mod error;
mod laws;
mod names;
mod properties;
mod roots;
mod txn_noderevs;
mod walk;

pub use drafts_laws::{
    a_draft_begins_as_its_base, begun_drafts, drafts_are_handed, drafts_draw, drafts_hang,
    drafts_keep_sides, drafts_stay, edits_keep_drafts, edits_keep_marks, edits_move, made_is_kept,
    marks_are_kept, outer_is_held, settings_are_edits, sides_are_marks, steps_are_edits,
    steps_keep_sides, steps_move, tied_are_met, tied_drafts,
};
pub use entries::{entries_in, lasting_entries, listed_in};
pub use error::EditError;
pub use laws::{ids_tell_what_a_head_changed, untouched_is_shared};
pub use names::room_in;
pub use properties::properties_in;
pub use roots::lasting_root;
pub use txn_noderevs::{KeptNode, Own, OwnError};
pub use walk::{Child, Found, Step, met, next, root_id};
