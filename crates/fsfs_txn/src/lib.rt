//! Nodes of a transaction that were opened: what was read of the revisions on the way to them is kept, so that a text or a property
//! is put there without reading anything.
//! The calls of a transaction: edits that are accepted or refused, and what is left once its bench has failed.
#![tactic(auto)]

mod edits;
mod ending;
mod getting;
mod laws;
mod merging;
mod node_texts;
mod opened;
mod opening;
mod paths;
mod seeing;
mod txn;
mod txn_error;

pub use edits::copying::Copied;
pub use edits::deleting::Deleted;
pub use edits::making::Made;
pub use edits::properties::PropertySet;
pub use edits::texts::TextSet;
pub use fsfs_merge::Outcome;
pub use getting::{Got, NodeView};
pub use laws::items_say_marks;
pub use opened::known::Known;
pub use opened::laws::drafts_grow;
pub use opened::opening::Way;
pub use opened::properties::PropertyPut;
pub use opened::texts::{TextPut, put_text};
pub use opening::{Opened, PathOpened};
pub use txn::Txn;
pub use txn_error::TxnError;
