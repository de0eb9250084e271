//! Trees and histories as values: what stands at a path, the tree of a revision, its changed paths and properties, and the
//! list of revisions.
//! What each command answers of a history: its output, its line and its status. Definitions alone.
#![tactic(auto)]

mod change_map;
mod history;
mod node;
mod tree;

pub use change_map::{Change, ChangeMap};
pub use history::{History, Revision};
pub use node::{Node, Text};
pub use tree::Tree;
