//! What `svnlook` prints of a revision, over any book into any sink: the text of a tree, and the text of a file.
//!
//! The texts are those of Subversion's own `svnlook`.
//! The properties of a revision: read of its property file, over any book, and its date as it is printed.
//! What `svnlook author`, `date`, `log` and `info` print of a revision, over any book into any sink, and the laws of these
//! texts.
//!
//! The texts are those of Subversion's own `svnlook`.
#![tactic(auto)]

mod file;
mod lines;
mod look_error;
mod path;
mod piece;
mod revprops;
mod tree;

pub use file::{cat, check_rep, write_rep};
pub use lines::put_spaces;
pub use look_error::LookError;
pub use path::found_at;
pub use piece::{write_full, write_last, write_piece};
pub use revprops::laws::{prop_texts_are_by_the_properties, prop_texts_are_one};
pub use revprops::looks::{author, date, info, log};
pub use revprops::reading::rev_props;
pub use tree::tree_text;
