//! The node part and the copy part of an id, as a key.
ghost use Rattle.std.specs.Prelude.{◌≡◌};
ghost use Rattle.fsfs_noderev.specs.Ids.{part_value};
ghost use Rattle.fsfs_txn_nodes.specs.Memory.Keys.{part_of};

use fsfs_noderev::{NodeId, Part};

/// A part of an id, by its numbers.
#[derive(Clone, Copy, PartialEq, Eq, Hash)]
pub(crate) enum KeyPart {
    New(u128),
    Old(u128),
    Made(u128, u32),
}

/// What a transaction names the files of an own node-revision by.
#[derive(Clone, Copy, PartialEq, Eq, Hash)]
pub(crate) struct NodeKey {
    pub(crate) node: KeyPart,
    pub(crate) copy: KeyPart,
}

fn key_part(part: Part) -> KeyPart
    ensures { part_of result ≡ part_value part }
{
    match part {
        Part::New(n) => KeyPart::New(n.number),
        Part::Old(n) => KeyPart::Old(n.number),
        Part::Made(n, rev) => KeyPart::Made(n.number, rev.get()),
    }
}

/// The key of an id.
pub(crate) fn key_of(id: &NodeId) -> NodeKey
    ensures node { part_of result.node ≡ part_value id.now.node }
    ensures copy { part_of result.copy ≡ part_value id.now.copy }
{
    NodeKey {
        node: key_part(id.node),
        copy: key_part(id.copy),
    }
}
