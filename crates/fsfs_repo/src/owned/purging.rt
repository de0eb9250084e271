//! Transactions are purged.
ghost use Rattle.std.specs.Prelude.{◌≡◌, ◌⊎◌, None, false, option_map, IfSome, OnOk, OnErr};
ghost use Rattle.fsfs_base.specs.Failures.{HasCause};
ghost use Rattle.fsfs_disk.specs.Labels.{has_label, without_label};
ghost use Rattle.fsfs_machine.specs.Kept.{IsIn};
ghost use Rattle.fsfs_disk.specs.Transactions.Txns.{pair_of, txn_label};
ghost use Rattle.fsfs_turn.specs.Mountings.{RoseBy};
ghost use Rattle.fsfs_turn.specs.Views.{View};
ghost use Rattle.fsfs_repo.specs.Txns.Purged.{PurgesAny};
ghost use Rattle.fsfs_repo.specs.Owned.Crashes.{CrashesLeave};

use crate::owned::repo::Repo;
use crate::purge_txn;
use fsfs_begin::PurgeFault;
use fsfs_disk::Disk;
use fsfs_draft::Own;
use fsfs_turn::{Owned, Turns};
use fsfs_txn::Txn;
use fsfs_txn_nodes::HeldNodes;

impl<D: Disk> Repo<D> {
    /// Purges a transaction, also one whose bench has failed: what its bench holds goes, then the bench, and last its label. A failure
    /// may leave its name listed; no revision is touched.
    pub fn purge<R>(&mut self, rt: &R, txn: Txn<HeldNodes<D::Bench>>) -> Result<(), PurgeFault>
        // Its label isn't kept any more, and all others are as they were.
        ensures unlisted { IfSome (⟦<Owned<D> as Turns<R>>⟧.labels self.new.turns) (λ ls. OnOk result (has_label (txn_label (pair_of (⟦<HeldNodes<D::Bench> as Own>⟧.txn txn.own))) ls ≡ false)) }
        ensures others { OnOk result (⟦<Owned<D> as Turns<R>>⟧.labels self.new.turns ≡ option_map (without_label (txn_label (pair_of (⟦<HeldNodes<D::Bench> as Own>⟧.txn txn.own)))) (⟦<Owned<D> as Turns<R>>⟧.labels self.old.turns)) }
        // A failure leaves all labels, or all but this one.
        ensures left { OnErr result ((⟦<Owned<D> as Turns<R>>⟧.labels self.new.turns ≡ ⟦<Owned<D> as Turns<R>>⟧.labels self.old.turns)
            ⊎ (⟦<Owned<D> as Turns<R>>⟧.labels self.new.turns ≡ option_map (without_label (txn_label (pair_of (⟦<HeldNodes<D::Bench> as Own>⟧.txn txn.own)))) (⟦<Owned<D> as Turns<R>>⟧.labels self.old.turns))) }
        // It is one step of the machine, however it went: of a transaction under way, whatever its edits were.
        ensures purged { (v : View) → ⟦<Owned<D> as Turns<R>>⟧.knows self.old.turns v → v.section ≡ None → IsIn (⟦<HeldNodes<D::Bench> as Own>⟧.txn txn.own).number.number v.given
            → PurgesAny (⟦<Owned<D> as Turns<R>>⟧.knows self.new.turns) (⟦<HeldNodes<D::Bench> as Own>⟧.txn txn.own).number.number result v }
        // What is known then says what a crash leaves, at each moment of the call too.
        ensures crashes { (u : View) → ⟦<Owned<D> as Turns<R>>⟧.knows self.new.turns u → CrashesLeave self.new.turns.layout (D.trace self.new.turns.disk) u }
        ensures mounted { D.mount_path self.new.turns.disk ≡ D.mount_path self.old.turns.disk }
        ensures benches { RoseBy (⟦<HeldNodes<D::Bench> as Own>⟧.faults txn.own) (D.bench_faults self.old.turns.disk) (D.bench_faults self.new.turns.disk) }
        ensures cause { HasCause (⟦<Owned<D> as Turns<R>>⟧.faults self.old.turns) (⟦<Owned<D> as Turns<R>>⟧.faults self.new.turns) result }
    {
        purge_txn(rt, &mut self.turns, txn)
    }
}
