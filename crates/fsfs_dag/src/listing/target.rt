//! What an entry names.

use fsfs_base::Kind;
use fsfs_noderev::NodeId;

/// What an entry names: the kind and the id of a node-revision.
#[derive(Clone, Copy)]
pub struct Target {
    pub kind: Kind,
    pub id: NodeId,
}
