//! Node-revisions in a hash table, by the node part and the copy part of their ids.
ghost use Rattle.std.specs.Prelude.{◌≡◌, ◌+◌, ◌<◌, ◌≤◌, [], option_map, vec_len, OnOk};
ghost use Rattle.std.specs.HashMap.{spare};
ghost use Rattle.fsfs_draft.specs.Views.{kept_value};
ghost use Rattle.fsfs_txn_nodes.specs.Memory.Keys.{at_key, with_key};
ghost use Rattle.fsfs_txn_nodes.specs.Memory.Lists.{files_of, with_steps};

use crate::memory::edit_steps::{Step, Steps};
use crate::memory::keys::NodeKey;
use fsfs_draft::KeptNode;
use std::alloc::AllocError;
use std::collections::HashMap;

/// Node-revisions by their keys, so that one is found without a look at each.
pub(crate) type Nodes = HashMap<NodeKey, KeptNode>;

/// The node-revision at a key.
pub(crate) fn node_at<'a>(nodes: &'a Nodes, key: &NodeKey) -> Option<&'a KeptNode>
    ensures { option_map (λ k. kept_value k.now) result ≡ at_key (files_of nodes.now) key.now }
{
    nodes.get(key)
}

/// Makes room for so many steps, and changes nothing.
pub(crate) fn make_room(nodes: &mut Nodes, steps: usize) -> Result<(), AllocError>
    ensures files { files_of nodes.new ≡ files_of nodes.old }
    ensures room { OnOk result (steps ≤ spare nodes.new) }
{
    nodes.reserve(steps)
}

/// Puts the node-revision of a step in place of the one at its key. No memory is taken: there is room.
pub(crate) fn put(nodes: &mut Nodes, step: Step)
    requires { 0 < spare nodes.old }
    ensures files { files_of nodes.new ≡ with_key step.key (kept_value step.kept) (files_of nodes.old) }
    ensures room { spare nodes.old ≤ spare nodes.new + 1 }
{
    let Step { key, kept } = step;
    let _replaced = nodes.insert(key, kept);
}

// Puts the node-revisions of the steps, one after another. No memory is taken: there is room.
fn put_steps(nodes: &mut Nodes, steps: &mut Vec<Step>)
    requires { vec_len steps.old ≤ spare nodes.old }
    ensures files { files_of nodes.new ≡ with_steps steps.old.items (files_of nodes.old) }
    ensures steps { steps.new.items ≡ [] }
{
    steps.reverse();
    while let Some(step) = steps.pop() {
        put(nodes, step);
    }
}

/// Puts the node-revisions of the steps, one after another. No memory is taken: there is room.
pub(crate) fn settle_steps(nodes: &mut Nodes, steps: &mut Steps)
    requires { vec_len steps.old.list ≤ spare nodes.old }
    ensures files { files_of nodes.new ≡ with_steps steps.old.list.items (files_of nodes.old) }
    ensures steps { steps.new.list.items ≡ [] }
{
    put_steps(nodes, &mut steps.list);
    steps.keys.clear();
}
