//! What `svnadmin dump` writes of a repository, over any book whose property files stay as they are, into any sink: all its
//! revisions as Subversion's dumpfile format, version 2, with full texts; and the laws of this text.
#![tactic(auto)]

mod again;
mod block;
mod facts;
mod headers;
mod item;
mod laws;
mod node;
mod revision;
mod text;
mod whole;

pub use laws::{dumps_are_by_the_history, dumps_have_one_text};
pub use whole::dump;
