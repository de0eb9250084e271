//! Transactions begin.
ghost use Rattle.std.specs.Prelude.{◌≡◌, ◌⊎◌, ◌≤◌, true, None, OnOk, OnErr, IfOk, IfErr, IfSome, option_map};
ghost use Rattle.fsfs_base.specs.Failures.{Rose};
ghost use Rattle.fsfs_disk.specs.Labels.{has_label, with_label};
ghost use Rattle.fsfs_disk.specs.Transactions.Txns.{pair_of, txn_label};
ghost use Rattle.fsfs_turn.specs.Mountings.{RoseBy};
ghost use Rattle.fsfs_turn.specs.Views.{View};
ghost use Rattle.fsfs_begin.specs.Steps.{HasLastName, Moved};
ghost use Rattle.fsfs_begin.specs.Faults.{Cause, IfBench, IfDisk, IsAbove, LacksNumber, LeavesNone, bench_faults_in};
ghost use Rattle.fsfs_begin.specs.Labels.{IsNew, ListsNoMore};
ghost use Rattle.fsfs_repo.specs.Txns.Begun.{BeginsTxn};
ghost use Rattle.fsfs_repo.specs.Owned.Crashes.{CrashesLeave};

use crate::begin_txn;
use crate::owned::repo::Repo;
use fsfs_base::RevNum;
use fsfs_begin::BeginFault;
use fsfs_disk::Disk;
use fsfs_draft::Own;
use fsfs_turn::{Owned, Turns};
use fsfs_txn::Txn;
use fsfs_txn_nodes::HeldNodes;
use std::alloc::Global;

impl<D: Disk> Repo<D> {
    /// Begins a transaction on a revision. Its name is drawn first, by a section of its own; then the root of the base is read, and
    /// last its bench is made and filled. No name is given twice, and whatever fails the lock is given, unless it was found stuck.
    pub fn begin<R>(
        self,
        rt: &R,
        alloc: Global,
        base: RevNum,
    ) -> (Repo<D>, Result<Txn<HeldNodes<D::Bench>>, BeginFault>)
        ensures base { IfOk result.1 (λ txn. txn.base ≡ base) }
        ensures named { IfOk result.1 (λ txn. (⟦<HeldNodes<D::Bench> as Own>⟧.txn txn.own).base ≡ base) }
        ensures fresh { IfOk result.1 (λ txn. (txn.spent ≡ None) × (txn.moves ≡ 0)) }
        ensures sound { IfOk result.1 (λ txn. ⟦<HeldNodes<D::Bench> as Own>⟧.faults txn.own ≡ 0) }
        // Its label is kept.
        ensures kept { IfSome (⟦<Owned<D> as Turns<R>>⟧.labels result.0.turns) (λ ls. IfOk result.1 (λ txn. has_label (txn_label (pair_of (⟦<HeldNodes<D::Bench> as Own>⟧.txn txn.own))) ls ≡ true)) }
        // It stands for the tree of its base, and the pass knows its name to be given.
        ensures begun { (v : View) → ⟦<Owned<D> as Turns<R>>⟧.knows self.turns v → v.section ≡ None
            → IfOk result.1 (λ txn. (u : View) × ⟦<Owned<D> as Turns<R>>⟧.knows result.0.turns u × BeginsTxn (⟦<HeldNodes<D::Bench> as Own>⟧.txn txn.own) base (⟦<HeldNodes<D::Bench> as Own>⟧.settled txn.own) v u) }
        // Or why none was begun, by what the pass knows; or no name is left in the files, and it is told that names are full, or that a read failed.
        ensures refused { (v : View) → ⟦<Owned<D> as Turns<R>>⟧.knows self.turns v → v.section ≡ None
            → IfErr result.1 (λ why. ((u : View) × ⟦<Owned<D> as Turns<R>>⟧.knows result.0.turns u × Moved v u × Cause base why u
            × IfBench why (LeavesNone base (⟦<Owned<D> as Turns<R>>⟧.labels result.0.turns) (Rose (⟦<Owned<D> as Turns<R>>⟧.faults self.turns) (⟦<Owned<D> as Turns<R>>⟧.faults result.0.turns)) v u))
            ⊎ (HasLastName (⟦<Owned<D> as Turns<R>>⟧.store self.turns) × LacksNumber why × ((u : View) × ⟦<Owned<D> as Turns<R>>⟧.knows result.0.turns u × Moved v u × (u.full ≡ true)))) }
        // Where none is left, none is begun, and the repository stays as it was.
        ensures full { HasLastName (⟦<Owned<D> as Turns<R>>⟧.store self.turns) → OnOk result.1 ⊥ × ((⟦<Owned<D> as Turns<R>>⟧.store result.0.turns).below ≡ (⟦<Owned<D> as Turns<R>>⟧.store self.turns).below) }
        // Its label came to those that were kept, and no other came or went. Where none was begun, none came, whatever is known.
        ensures listed { IfOk result.1 (λ txn. ⟦<Owned<D> as Turns<R>>⟧.labels result.0.turns ≡ option_map (with_label (txn_label (pair_of (⟦<HeldNodes<D::Bench> as Own>⟧.txn txn.own)))) (⟦<Owned<D> as Turns<R>>⟧.labels self.turns)) }
        ensures unlisted { OnErr result.1 (ListsNoMore (IsNew (⟦<Owned<D> as Turns<R>>⟧.knows self.turns)) base (Rose (⟦<Owned<D> as Turns<R>>⟧.faults self.turns) (⟦<Owned<D> as Turns<R>>⟧.faults result.0.turns)) (⟦<Owned<D> as Turns<R>>⟧.labels self.turns) (⟦<Owned<D> as Turns<R>>⟧.labels result.0.turns)) }
        // What is known then says what a crash leaves, at each moment of the call too.
        ensures crashes { (u : View) → ⟦<Owned<D> as Turns<R>>⟧.knows result.0.turns u → CrashesLeave result.0.turns.layout (D.trace result.0.turns.disk) u }
        // Whatever the disk tells.
        ensures above { IfErr result.1 (IsAbove base) }
        ensures mounted { D.mount_path result.0.turns.disk ≡ D.mount_path self.turns.disk }
        // A bench is told to have failed only where the count of those rose.
        ensures benches { RoseBy (bench_faults_in result.1) (D.bench_faults self.turns.disk) (D.bench_faults result.0.turns.disk) }
        ensures later { ⟦<Owned<D> as Turns<R>>⟧.faults self.turns ≤ ⟦<Owned<D> as Turns<R>>⟧.faults result.0.turns }
        ensures cause { IfErr result.1 (λ why. IfDisk why (Rose (⟦<Owned<D> as Turns<R>>⟧.faults self.turns) (⟦<Owned<D> as Turns<R>>⟧.faults result.0.turns))) }
    {
        let Repo { turns } = self;
        let (back, begun) = begin_txn(rt, alloc, turns, base);
        (Repo { turns: back }, begun)
    }
}
