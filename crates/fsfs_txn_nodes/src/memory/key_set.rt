//! Sets of keys.
ghost use Rattle.std.specs.Prelude.{◌≡◌, ◌+◌, ◌<◌, ◌≤◌, true, OnOk};
ghost use Rattle.std.specs.HashSet.{spare};
ghost use Rattle.fsfs_txn_nodes.specs.Memory.KeySets.{has_key, KeepsKeys};

use crate::memory::keys::NodeKey;
use std::alloc::AllocError;
use std::collections::HashSet;

pub(crate) type KeySet = HashSet<NodeKey>;

pub(crate) fn has_key(keys: &KeySet, key: &NodeKey) -> bool
    ensures { result ≡ has_key keys.now key.now }
{
    keys.contains(key)
}

/// Makes room for so many keys more.
pub(crate) fn make_key_room(keys: &mut KeySet, count: usize) -> Result<(), AllocError>
    ensures kept { KeepsKeys keys.old keys.new }
    ensures room { OnOk result (count ≤ spare keys.new) }
{
    keys.reserve(count)
}

/// Puts a key. No memory is taken: there is room.
pub(crate) fn put_key(keys: &mut KeySet, key: NodeKey)
    requires { 0 < spare keys.old }
    ensures kept { KeepsKeys keys.old keys.new }
    ensures here { has_key keys.new key ≡ true }
    ensures room { spare keys.old ≤ spare keys.new + 1 }
{
    let _added = keys.insert(key);
}
