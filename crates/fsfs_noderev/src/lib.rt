//! Node-revisions: their ids, the representations of their texts and properties, and the lines that they are written in.
//!
//! The forms are those of the libsvn_fs_fs structure file for format 4.
//! Changed-path data: the changed paths of a revision, and those that a transaction's edits wrote down.
//!
//! The form is that of the libsvn_fs_fs structure file, "Changed path data".
//! Limits of paths: what is written of node-revisions and changed paths has none past them.
#![tactic(auto)]

mod changes;
mod fields;
mod limits;
mod node_id;
mod node_rev;
mod reading;
mod rep;
mod writing;

pub use changes::error::{ChangeError, ChangeFault};
pub use changes::item::ChangeItem;
pub use changes::reading::{read_changes, read_item, read_revision_changes};
pub use changes::writing::{put_item, write_changes};
pub use fields::Fields;
pub use limits::limit::{LimitError, PathLimit};
pub use limits::texts::{check_item, check_node, is_told};
pub use node_id::{NodeId, Part, Place, put_id, read_id, write_id};
pub use node_rev::{CopyRoot, CopySource, Field, NodeFault, NodeRev, Which, same_source};
pub use reading::{MAX_NODE_REV, NodeError, read_fields, read_noderev};
pub use rep::{Contents, Rep, Uniquifier, put_contents, put_rep, read_rep};
pub use writing::write_noderev;
