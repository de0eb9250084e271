//! Transactions under way, changed in their places.
ghost use Rattle.std.specs.Prelude.{◌≡◌, ◌+◌, ◌++◌, ◌∷◌, [], OnOk};
ghost use Rattle.fsfs_machine.specs.Machine.{at_place, edited, merged};

use crate::machine::{Marks, Txn};
use fsfs_base::RevNum;
use fsfs_model::Mark;
use fsfs_tree::Tree;
use std::alloc::{AllocError, Global};

impl Marks {
    pub fn new(alloc: Global) -> Marks
        ensures { result ≡ [] }
    {
        Marks {
            marks: Vec::new(alloc),
        }
    }

    pub fn as_slice(&self) -> &[Mark]
        ensures { result.now ≡ self.now }
    {
        &self.marks
    }

    pub fn push(&mut self, mark: Mark) -> Result<(), AllocError>
        ensures { OnOk result (self.new ≡ self.old ++ mark ∷ []) }
    {
        self.marks.push(mark)?;
        Ok(())
    }
}

/// The transaction with an edit more.
#[tactic(auto, using(crate::proofs::OnePlace::set_at_place, crate::proofs::OnePlace::no_place))]
pub fn set_edited(txns: &mut Vec<Txn>, t: u64, tree: Tree, mark: Mark) -> Result<(), AllocError>
    ensures { OnOk result (txns.new.items ≡ at_place txns.old.items t (edited tree mark)) }
{
    let at = t as usize;
    if at < txns.len() {
        let txn = &mut txns[at];
        txn.tree = tree;
        txn.marks.push(mark)?;
    }
    Ok(())
}

/// The transaction on its new base.
#[tactic(auto, using(crate::proofs::OnePlace::set_at_place, crate::proofs::OnePlace::no_place))]
pub fn set_merged(txns: &mut Vec<Txn>, t: u64, tree: Tree, head: RevNum)
    ensures { txns.new.items ≡ at_place txns.old.items t (merged tree head) }
{
    let at = t as usize;
    if at < txns.len() {
        let txn = &mut txns[at];
        txn.base = head;
        txn.tree = tree;
        txn.landings = txn.landings.saturating_add(1);
    }
}
