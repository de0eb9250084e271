//! What may be wrong with the bytes of a repository's revisions: one table of damage, with the places, and what a reading
//! answers.
//!
//! `specs` has what a reading is: a relation with one answer at most, and the checks that it makes, in their order.
//! A book: what gives the bytes of revisions, wherever they are kept; with `RevProps` also their property files.
//!
//! Code that reads revisions is written and proved once, over any `Book`. `MemBook` is a small one in memory.
//! Where the bytes of a revision stand: in a file of their own, or, below the floor, in the pack of their shard.
//!
//! These are definitions, in `specs`, and laws about them. The files are those of the libsvn_fs_fs structure file for format 4.
//! Representations: where the texts, property lists and directories of a revision stand, and how they are checked.
//!
//! A plain representation is the line `PLAIN`, the bytes, and the line `ENDREP`. (The libsvn_fs_fs structure file.)
//! A revision's bytes: where its root stands, and whether what stands there may stand there.
//!
//! The forms are those of the libsvn_fs_fs structure file for format 4: a revision ends with a trailer of two offsets, of its
//! root's node-revision and of its changed paths. All offsets count from the beginning of the revision's own bytes.
//! What the bytes of a repository's revisions show: how a node is read from them, what is wrong with them and where, which
//! flat tree they show, and how the ids of node-revisions hang together.
//!
//! These are definitions, in `specs`, and laws about them; the functions that read by them stand in the crates above. The
//! forms are those of the libsvn_fs_fs structure file for format 4; the order of the checks, and what a node's three numbers
//! mean, are this project's profile.
//! Where what stands at a path came from: what stood there one revision before, and the copy by which it came.
//!
//! These are laws about the definitions in `specs/Shows`: where bytes show a tree for each revision and the rules of ids hold,
//! those trees are the trees of a history.
#![tactic(auto)]

mod book;
mod damage;
mod laws;
mod mem_book;
mod node;
mod rep;
mod rev_props;
mod root;
mod section;
mod trailer;
mod wrong;

pub use book::{Book, BookFault};
pub use damage::{Damage, DamageKind, RepWhat, RevOffset};
pub use laws::ancestry::{
    later_bytes_change_nothing, predecessors_are_earlier, shown_trees_are_a_history,
};
pub use laws::places::revisions_are_found_by_grammar;
pub use laws::shows::{
    damage_is_the_first, one_tree_is_shown, readings_answer_by_the_tree, readings_have_one_answer,
    shown_trees_are_sound, the_first_revision_shows_its_root,
};
pub use mem_book::{MemBook, MemFile, MemRev};
pub use node::{is_before, is_revision_id, own_rev, read_node_at};
pub use rep::digester::Digester;
pub use rep::frame::{ENDREP_LEN, PLAIN_LEN};
pub use rep::place::bad_rep;
pub use rep::rep_reader::RepReader;
pub use rep::whole::read_rep_bytes;
pub use rep::windows::window;
pub use rev_props::{RevProps, StillProps};
pub use root::{as_root, read_root};
pub use section::Section;
pub use trailer::{TRAILER_LIMIT, Trailer, put_trailer, read_tail, read_trailer};
pub use wrong::{ReadError, Refusal, Wrong};
