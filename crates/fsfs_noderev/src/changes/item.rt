//! One item of changed-path data.
use crate::{CopySource, NodeId};
use fsfs_base::{Action, FsPath, Kind};

/// What happened to a path, as an item says it: `<id> <action>-<kind> <text-mod> <prop-mod> <path>` in one line, and the
/// revision and path of the copy source, or nothing, in the next.
#[derive(Drop)]
pub struct ChangeItem {
    /// The node-revision at the path; of a delete the one that was deleted.
    pub id: NodeId,
    pub action: Action,
    /// None: the item doesn't say it, and it is that of the id's node-revision.
    pub kind: Option<Kind>,
    /// Whether its text was set; never in a delete.
    pub text_changed: bool,
    /// Whether its properties were set; never in a delete.
    pub props_changed: bool,
    pub path: FsPath,
    /// The revision and path that it was copied from.
    pub source: Option<CopySource>,
}
