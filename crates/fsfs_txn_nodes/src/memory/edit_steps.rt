//! The steps of an edit.
ghost use Rattle.std.specs.Prelude.{◌≡◌, ◌+◌, ◌++◌, ◌∷◌, [], ℕ, option_map, vec_len, OnOk};
ghost use Rattle.fsfs_draft.specs.Steps.{Files};
ghost use Rattle.fsfs_draft.specs.Views.{kept_value};
ghost use Rattle.fsfs_txn_nodes.specs.Memory.Keys.{at_key};
ghost use Rattle.fsfs_txn_nodes.specs.Memory.KeySets.{AreKeyed, HasRoom};
ghost use Rattle.fsfs_txn_nodes.specs.Memory.Lists.{with_steps, or_found};

use crate::memory::key_set::{KeySet, has_key, make_key_room, put_key};
use crate::memory::keys::NodeKey;
use fsfs_draft::KeptNode;
use std::alloc::{AllocError, Global};
use std::collections::HashSet;

/// A step: it puts this node-revision at the key.
#[derive(Drop)]
pub(crate) struct Step {
    pub(crate) key: NodeKey,
    pub(crate) kept: KeptNode,
}

/// What the last of the steps that put a node-revision at the key has put.
fn last_of<'a>(steps: &'a [Step], key: &NodeKey) -> Option<&'a KeptNode>
    ensures { (files : Files) → at_key (with_steps steps.now files) key.now ≡ or_found (option_map (λ k. kept_value k.now) result) (at_key files key.now) }
{
    let mut left = steps;
    while let [before @ .., step] = left {
        if step.key == *key {
            return Some(&step.kept);
        }
        left = before;
    }
    None
}

/// Steps, the newest last. A merge takes one for each directory, so a key at which none has put anything is told without a look at
/// each.
#[derive(Drop)]
pub(crate) struct Steps {
    pub(crate) list: Vec<Step>,
    // The keys of all steps.
    pub(crate) keys: KeySet,
    ghost keyed: { AreKeyed keys list.items },
}

impl Steps {
    /// No step.
    pub(crate) fn new(alloc: Global) -> Steps
        ensures items { result.list.items ≡ [] }
    {
        Steps {
            list: Vec::new(alloc),
            keys: HashSet::new(alloc),
        }
    }

    /// How many there are.
    pub(crate) fn len(&self) -> usize
        ensures { result ≡ vec_len self.now.list }
    {
        self.list.len()
    }

    /// Makes room for so many more.
    pub(crate) fn reserve(&mut self, count: usize) -> Result<(), AllocError>
        ensures items { self.new.list.items ≡ self.old.list.items }
        ensures room { OnOk result (HasRoom count self.new.list self.new.keys) }
    {
        self.list.reserve(count)?;
        make_key_room(&mut self.keys, count)
    }

    /// Puts one behind them. No memory is taken: there is room.
    pub(crate) fn push_reserved(&mut self, step: Step)
        requires { HasRoom 1 self.old.list self.old.keys }
        ensures items { self.new.list.items ≡ self.old.list.items ++ step ∷ [] }
        ensures room { (n : ℕ) → HasRoom (n + 1) self.old.list self.old.keys → HasRoom n self.new.list self.new.keys }
    {
        put_key(&mut self.keys, step.key);
        self.list.push_reserved(step);
    }

    /// Takes all away.
    pub(crate) fn clear(&mut self)
        ensures items { self.new.list.items ≡ [] }
    {
        self.list.clear();
        self.keys.clear();
    }

    /// What the last of them that puts a node-revision at the key puts.
    pub(crate) fn last_at(&self, key: &NodeKey) -> Option<&KeptNode>
        ensures { (files : Files) → at_key (with_steps self.now.list.items files) key.now ≡ or_found (option_map (λ k. kept_value k.now) result) (at_key files key.now) }
    {
        if has_key(&self.keys, key) {
            last_of(self.list.as_slice(), key)
        } else {
            None
        }
    }
}
