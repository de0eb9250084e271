//! What `svnlook history` prints of a path, over any book into any sink: the points of its history, newest first.
//!
//! The text is that of Subversion's own `svnlook`.
//! What `svnlook changed` prints of a revision, over any book into any sink.
//!
//! The text is that of Subversion's own `svnlook`, its lines in the order of the bytes of paths.
#![tactic(auto)]

mod by_text;
mod changed;
mod data;
mod entries_by_name;
mod history;
mod items;
mod kept_dir;
mod kinds;
mod lines;
mod taken;

pub use by_text::ItemsByText;
pub use changed::{changed_text, ending};
pub use data::{ChangesData, changes_data};
pub use entries_by_name::EntriesByName;
pub use history::history_text;
pub use items::{ReadItems, items_of};
pub use kinds::{is_nameable, kind_of};
