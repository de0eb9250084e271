//! Ids of own node-revisions.
ghost use Rattle.std.specs.Prelude.{◌≡◌};

use fsfs_noderev::{NodeId, NodeRev, Part};

/// The id with these parts, at the place of another.
pub(crate) fn id_with(at: &NodeId, node: &Part, copy: &Part) -> NodeId
    ensures { result ≡ record { node = node.now; copy = copy.now; place = at.now.place } }
{
    NodeId {
        node: *node,
        copy: *copy,
        place: at.place,
    }
}

/// The id of a node-revision.
pub(crate) fn id_of(node: &NodeRev) -> NodeId
    ensures { result ≡ node.now.id }
{
    node.id
}
