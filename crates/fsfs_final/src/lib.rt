//! The bytes of a new revision, of a draft's node-revisions.
//! The pieces of a new revision's bytes behind its prototype file: lists, finished node-revisions, and the end.
//!
//! They are put at the end of a buffer, whose first byte stands so many bytes behind the beginning of the revision.
//! The own node-revisions of a transaction, in the order in which they are put into a new revision.
//! A draft's own node-revisions put one after another into a new revision, behind its prototype file.
#![tactic(auto)]

mod laws;
mod order;
mod pieces;
mod write_final;
mod write_final_laws;

pub use laws::{
    begun_is_a_draft, changes_fit_the_bytes, commits_add_revisions, contents_are_read,
    directories_are_enough, drafts_stay, finals_are_in_order, finishing_is_final,
    held_drafts_are_committed, held_drafts_are_read, pieces_are_read, the_next_revision_is_shown,
    what_is_laid_is_held, written_drafts_keep_ids, written_drafts_show_the_landing,
};
pub use order::error::OrderError;
pub use order::nodes::own_nodes;
pub use pieces::ending::put_end;
pub use pieces::laws::{
    draft_texts_stand_before, put_ends_are_read, put_lists_are_framed, put_nodes_are_laid,
};
pub use pieces::naming::name_final;
pub use write_final::put_all;
pub use write_final_laws::puts_lay;
