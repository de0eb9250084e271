//! Transactions are committed.
ghost use Rattle.std.specs.Prelude.{◌≡◌, ◌≤◌, None, false, IfSome};
ghost use Rattle.fsfs_base.specs.Failures.{Rose};
ghost use Rattle.fsfs_disk.specs.Labels.{has_label};
ghost use Rattle.fsfs_machine.specs.declared.machine.Txn.{Txn as MachineTxn};
ghost use Rattle.fsfs_machine.specs.Kept.{IsIn};
ghost use Rattle.fsfs_turn.specs.Mountings.{RoseBy};
ghost use Rattle.fsfs_turn.specs.Views.{View};
ghost use Rattle.fsfs_disk.specs.Transactions.Txns.{pair_of, txn_label};
ghost use Rattle.fsfs_commit.specs.Transaction.Findings.{HoldsPast};
ghost use Rattle.fsfs_commit.specs.Transaction.Meaning.{IsTxnOf};
ghost use Rattle.fsfs_repo.specs.Txns.Commits.{IfBack, IfFailed, IfPurged, Meets, bench_faults_told};
ghost use Rattle.fsfs_repo.specs.Owned.Crashes.{CrashesLeave};
ghost use Rattle.fsfs_repo.specs.Owned.Labels.{LeavesLabels};
ghost use Rattle.fsfs_repo.specs.Txns.Limits.{IfPastLimit};

use crate::owned::repo::Repo;
use crate::{CommitAnswer, commit_txn};
use fsfs_base::{Gate, Pairs, no_note};
use fsfs_disk::Disk;
use fsfs_draft::Own;
use fsfs_turn::{Owned, Turns};
use fsfs_txn::Txn;
use fsfs_txn_nodes::HeldNodes;
use std::alloc::Global;

impl<D: Disk> Repo<D> {
    /// Commits a transaction with these properties, and as their `svn:date` a moment in microseconds after 1970-01-01T00:00:00 UTC, in
    /// a year up to 2099. It takes up to four turns, each of which lands the transaction on the youngest revision and makes what is
    /// written; with the write lock held it writes that behind the texts, and publishes it by the section. What is left of the
    /// transaction is purged then. The lock is given in the end, but where a fault left it stuck.
    pub fn commit<R, G: Gate>(
        self,
        rt: &R,
        alloc: Global,
        txn: Txn<HeldNodes<D::Bench>>,
        properties: Pairs,
        micros: u64,
        gate: &G,
    ) -> (Repo<D>, CommitAnswer<Txn<HeldNodes<D::Bench>>>)
        requires moment { micros ≤ 4102444799999999 }
        requires sound { txn.spent ≡ None }
        // Over what the pass may know, of a transaction that stands for x: the revision that was added is the landing of the entry of x;
        // or nothing was added, why, and what is left.
        ensures meets { (v : View) (x : MachineTxn) → ⟦<Owned<D> as Turns<R>>⟧.knows self.turns v → v.section ≡ None → IsIn x.name v.given
            → IsTxnOf v.seen (⟦<HeldNodes<D::Bench> as Own>⟧.txn txn.own) txn.base (⟦<HeldNodes<D::Bench> as Own>⟧.settled txn.own) x
            → Meets (⟦<Owned<D> as Turns<R>>⟧.knows result.0.turns) (λ h y t. (t.spent ≡ None) × IsTxnOf h (⟦<HeldNodes<D::Bench> as Own>⟧.txn t.own) t.base (⟦<HeldNodes<D::Bench> as Own>⟧.settled t.own) y) micros properties v x result.1 }
        // Where a limit is told, the transaction that is handed back has a path past it: of an item of its edits, or of a node-revision.
        ensures past { IfPastLimit result.1 (λ limit t. HoldsPast (⟦<HeldNodes<D::Bench> as Own>⟧.settled t.own) limit) }
        // Where its files are gone, its label isn't kept any more.
        ensures unlisted { IfPurged result.1 (IfSome (⟦<Owned<D> as Turns<R>>⟧.labels result.0.turns) (λ ls. has_label (txn_label (pair_of (⟦<HeldNodes<D::Bench> as Own>⟧.txn txn.own))) ls ≡ false)) }
        // One that is handed back has the name that it had.
        ensures named { IfBack result.1 (λ t. ⟦<HeldNodes<D::Bench> as Own>⟧.txn t.own ≡ ⟦<HeldNodes<D::Bench> as Own>⟧.txn txn.own) }
        // And what becomes of all labels: behind a commit that hands no transaction back its own goes, unless a turn failed.
        ensures listed { LeavesLabels result.1 (txn_label (pair_of (⟦<HeldNodes<D::Bench> as Own>⟧.txn txn.own))) (Rose (⟦<Owned<D> as Turns<R>>⟧.faults self.turns) (⟦<Owned<D> as Turns<R>>⟧.faults result.0.turns)) (⟦<Owned<D> as Turns<R>>⟧.labels self.turns) (⟦<Owned<D> as Turns<R>>⟧.labels result.0.turns) }
        // What is known then says what a crash leaves, at each moment of the call too.
        ensures crashes { (u : View) → ⟦<Owned<D> as Turns<R>>⟧.knows result.0.turns u → CrashesLeave result.0.turns.layout (D.trace result.0.turns.disk) u }
        ensures mounted { D.mount_path result.0.turns.disk ≡ D.mount_path self.turns.disk }
        // A bench is told to have failed only where the count of those rose.
        ensures benches { RoseBy (bench_faults_told result.1) (D.bench_faults self.turns.disk) (D.bench_faults result.0.turns.disk) }
        ensures later { ⟦<Owned<D> as Turns<R>>⟧.faults self.turns ≤ ⟦<Owned<D> as Turns<R>>⟧.faults result.0.turns }
        ensures cause { IfFailed result.1 (Rose (⟦<Owned<D> as Turns<R>>⟧.faults self.turns) (⟦<Owned<D> as Turns<R>>⟧.faults result.0.turns)) }
    {
        let Repo { turns } = self;
        // Nobody else rests on these turns, so nothing is noted.
        let (back, answer) = commit_txn(rt, alloc, turns, txn, properties, micros, no_note(), gate);
        (Repo { turns: back }, answer)
    }
}
