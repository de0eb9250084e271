//! The parts of ids that node-revisions brought up.
ghost use Rattle.std.specs.Prelude.{◌≡◌, ◌+◌, ◌++◌, ◌∷◌, ℕ, true, List, []};
ghost use Rattle.fsfs_noderev.specs.declared.node_id.Part.{Part};
ghost use Rattle.fsfs_revision.specs.declared.damage.DamageKind.TheVariants.{CopyId};
ghost use Rattle.fsfs_revision.specs.Damage.Causes.{IsQuiet};
ghost use Rattle.fsfs_revision.specs.Damage.Damages.{damaged};
ghost use Rattle.fsfs_revision.specs.Nodes.{is_lasting_part};
ghost use Rattle.fsfs_dag.specs.Views.{home_of};
ghost use Rattle.fsfs_verify.specs.Brought.{Brought, MayBegin, MayCopy, MayDraw};
ghost use Rattle.fsfs_verify.specs.Finds.{Finds};

use crate::damage::breaks_rule;
use crate::numbers::{PartSet, may_be_copied_in, may_be_made_in};
use fsfs_base::RevNum;
use fsfs_dag::PlacedNode;
use fsfs_revision::ReadError;
use std::alloc::Global;

/// The parts that node-revisions of the revisions up to one brought up. In memory are those of the last revision, and those
/// that don't tell their revision, of which there is only `0` but in repositories that were begun by old versions.
#[derive(Drop)]
pub(crate) struct Parts {
    // Node parts of nodes that begin.
    begun: PartSet,
    // Copy parts of copies.
    copied: PartSet,
    // Copy parts that were drawn for what is no copy.
    drawn: PartSet,
}

impl Parts {
    /// None.
    pub(crate) fn new(alloc: Global) -> Parts
        ensures { Brought 0 result [] [] [] }
    {
        Parts {
            begun: PartSet::new(alloc),
            copied: PartSet::new(alloc),
            drawn: PartSet::new(alloc),
        }
    }

    /// Forgets the parts that tell their revision, behind the last node-revision of this one.
    pub(crate) fn end_revision(&mut self)
        ensures { (rev : ℕ) (begun copied drawn : List Part) → Brought rev self.old begun copied drawn → Brought (rev + 1) self.new begun copied drawn }
    {
        self.begun.forget_made();
        self.copied.forget_made();
        self.drawn.forget_made();
    }

    /// A node-revision of this revision without predecessor: no other has its node part.
    pub(crate) fn begin_node(&mut self, rev: RevNum, node: &PlacedNode) -> Result<(), ReadError>
        ensures told { (begun copied drawn : List Part) → is_lasting_part node.now.node.id.node ≡ true → Brought rev self.old begun copied drawn
            → Finds (λ _. Brought rev self.new (begun ++ node.now.node.id.node ∷ []) copied drawn × MayBegin rev begun node.now.node.id.node) (λ w. (MayBegin rev begun node.now.node.id.node → ⊥) × (w ≡ damaged (home_of node.now.node) CopyId)) result }
        ensures quiet { IsQuiet result }
    {
        let part = &node.node.id.node;
        if !may_be_made_in(rev, part) {
            return Err(breaks_rule(node));
        }
        if !self.begun.put(part)? {
            return Err(breaks_rule(node));
        }
        Ok(())
    }

    /// A copy of this revision: no other node-revision brought up its copy part.
    pub(crate) fn copy_node(&mut self, rev: RevNum, copy: &PlacedNode) -> Result<(), ReadError>
        ensures told { (begun copied drawn : List Part) → is_lasting_part copy.now.node.id.copy ≡ true → Brought rev self.old begun copied drawn
            → Finds (λ _. Brought rev self.new begun (copied ++ copy.now.node.id.copy ∷ []) drawn × MayCopy rev copied drawn copy.now.node.id.copy) (λ w. (MayCopy rev copied drawn copy.now.node.id.copy → ⊥) × (w ≡ damaged (home_of copy.now.node) CopyId)) result }
        ensures quiet { IsQuiet result }
    {
        let part = &copy.node.id.copy;
        if !may_be_copied_in(rev, part) {
            return Err(breaks_rule(copy));
        }
        if self.drawn.has(part) {
            return Err(breaks_rule(copy));
        }
        if !self.copied.put(part)? {
            return Err(breaks_rule(copy));
        }
        Ok(())
    }

    /// A node-revision of this revision with a copy part that was drawn for it: no copy has that.
    pub(crate) fn draw_part(&mut self, rev: RevNum, node: &PlacedNode) -> Result<(), ReadError>
        ensures told { (begun copied drawn : List Part) → is_lasting_part node.now.node.id.copy ≡ true → Brought rev self.old begun copied drawn
            → Finds (λ _. Brought rev self.new begun copied (drawn ++ node.now.node.id.copy ∷ []) × MayDraw rev copied node.now.node.id.copy) (λ w. (MayDraw rev copied node.now.node.id.copy → ⊥) × (w ≡ damaged (home_of node.now.node) CopyId)) result }
        ensures quiet { IsQuiet result }
    {
        let part = &node.node.id.copy;
        if !may_be_copied_in(rev, part) {
            return Err(breaks_rule(node));
        }
        if self.copied.has(part) {
            return Err(breaks_rule(node));
        }
        self.drawn.put(part)?;
        Ok(())
    }
}
