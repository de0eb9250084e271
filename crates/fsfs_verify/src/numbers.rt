//! The numbers of parts of ids.
ghost use Rattle.std.specs.Prelude.{◌≡◌, ◌≢◌, ◌||◌, ◌&&◌, true, false, not, IfOk, OnOk};
ghost use Rattle.fsfs_noderev.specs.Ids.{part_value, Old};
ghost use Rattle.fsfs_noderev.specs.declared.node_id.Part.{Part};
ghost use Rattle.fsfs_revision.specs.Nodes.{is_lasting_part};
ghost use Rattle.fsfs_revision.specs.Shows.IdRules.{HasSuffix};
ghost use Rattle.fsfs_verify.specs.PartSets.{holds, same_number, is_old};

use fsfs_base::RevNum;
use fsfs_noderev::Part;
use std::alloc::{AllocError, Global};
use std::collections::BTreeSet;

/// Parts of ids. Those of one revision can be forgotten: each tells its revision, so no later one is among them.
#[derive(Drop)]
pub(crate) struct PartSet {
    // `<number>-<revision>` of one revision.
    made: BTreeSet<u128>,
    // `<number>`.
    lasting: BTreeSet<u128>,
}

/// Whether the part is `0`, that of the root and of what was never copied.
pub(crate) fn is_first(part: &Part) -> bool
    ensures yes { result ≡ true → part_value part.now ≡ Old 0 }
    ensures other { result ≡ false → part_value part.now ≢ Old 0 }
{
    match part {
        Part::Old(number) => number.number == 0,
        Part::New(_) | Part::Made(_, _) => false,
    }
}

/// Whether the part was made in this revision, so far as it tells.
pub(crate) fn may_be_made_in(rev: RevNum, part: &Part) -> bool
    ensures yes { result ≡ true → HasSuffix rev part.now }
    ensures other { result ≡ false → HasSuffix rev part.now → ⊥ }
{
    match part {
        Part::Made(_, made) => made.get() == rev.get(),
        Part::Old(_) | Part::New(_) => true,
    }
}

/// Whether the part may be that of a copy of this revision, or be drawn in it.
pub(crate) fn may_be_copied_in(rev: RevNum, part: &Part) -> bool
    ensures yes { result ≡ true → (part_value part.now ≢ Old 0) × HasSuffix rev part.now }
    ensures other { result ≡ false → (part_value part.now ≢ Old 0) × HasSuffix rev part.now → ⊥ }
{
    !is_first(part) && may_be_made_in(rev, part)
}

impl PartSet {
    pub(crate) fn new(alloc: Global) -> PartSet
        ensures { (part : Part) → holds result part ≡ false }
    {
        PartSet {
            made: BTreeSet::new(alloc),
            lasting: BTreeSet::new(alloc),
        }
    }

    /// Whether the part is among them.
    pub(crate) fn has(&self, part: &Part) -> bool
        ensures { result ≡ holds self.now part.now }
    {
        match part {
            Part::New(_) => false,
            Part::Old(number) => self.lasting.contains(&number.number),
            Part::Made(number, _) => self.made.contains(&number.number),
        }
    }

    /// Puts a part among them, and answers whether it is new.
    pub(crate) fn put(&mut self, part: &Part) -> Result<bool, AllocError>
        ensures new { is_lasting_part part.now ≡ true → IfOk result (λ new. new ≡ not (holds self.old part.now)) }
        ensures put { OnOk result ((other : Part) → holds self.new other ≡ (same_number part.now other || holds self.old other)) }
    {
        match part {
            Part::New(_) => Ok(true),
            Part::Old(number) => Ok(self.lasting.insert(number.number)?),
            Part::Made(number, _) => Ok(self.made.insert(number.number)?),
        }
    }

    /// Forgets those that tell their revision.
    pub(crate) fn forget_made(&mut self)
        ensures { (part : Part) → holds self.new part ≡ (is_old part && holds self.old part) }
    {
        self.made.clear();
    }
}
