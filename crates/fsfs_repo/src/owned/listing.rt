//! Transactions are listed.
ghost use Rattle.std.specs.Prelude.{◌≡◌, ◌≤◌, map, IfOk, IfSome, OnOk, IsErrOf};
ghost use Rattle.fsfs_base.specs.Failures.{Rose};
ghost use Rattle.fsfs_disk.specs.Transactions.Txns.{text_of, AreTxns};
ghost use Rattle.fsfs_turn.specs.Views.{View};
ghost use Rattle.fsfs_repo.specs.Owned.Crashes.{CrashesLeave};
ghost use Rattle.fsfs_repo.specs.Txns.Listings.{ListsSo};

use crate::owned::repo::Repo;
use crate::txns::listing::list_txns;
use fsfs_base::TxnName;
use fsfs_disk::{Disk, ListFault};
use fsfs_turn::{Owned, Turns};
use std::alloc::Global;

impl<D: Disk> Repo<D> {
    /// The names of the transactions that there are, in the order of their bytes: one for each label of a transaction that is kept. It
    /// changes no label.
    pub fn txns<R>(&mut self, rt: &R, alloc: Global) -> Result<Vec<TxnName>, ListFault>
        ensures names { IfSome (⟦<Owned<D> as Turns<R>>⟧.labels self.new.turns) (λ ls. IfOk result (λ names. AreTxns ls (map text_of names.items))) }
        // It is one step of the machine.
        ensures listed { (v : View) → ⟦<Owned<D> as Turns<R>>⟧.knows self.old.turns v
            → ListsSo (⟦<Owned<D> as Turns<R>>⟧.knows self.new.turns) (⟦<Owned<D> as Turns<R>>⟧.labels self.new.turns) result v }
        // What is known then says what a crash leaves, at each moment of the call too.
        ensures crashes { (u : View) → ⟦<Owned<D> as Turns<R>>⟧.knows self.new.turns u → CrashesLeave self.new.turns.layout (D.trace self.new.turns.disk) u }
        ensures same { ⟦<Owned<D> as Turns<R>>⟧.labels self.new.turns ≡ ⟦<Owned<D> as Turns<R>>⟧.labels self.old.turns }
        ensures mounted { D.mount_path self.new.turns.disk ≡ D.mount_path self.old.turns.disk }
        ensures benches { D.bench_faults self.new.turns.disk ≡ D.bench_faults self.old.turns.disk }
        ensures later { ⟦<Owned<D> as Turns<R>>⟧.faults self.old.turns ≤ ⟦<Owned<D> as Turns<R>>⟧.faults self.new.turns }
        ensures done { OnOk result (⟦<Owned<D> as Turns<R>>⟧.faults self.new.turns ≡ ⟦<Owned<D> as Turns<R>>⟧.faults self.old.turns) }
        ensures failed { IsErrOf result ListFault.Failed → Rose (⟦<Owned<D> as Turns<R>>⟧.faults self.old.turns) (⟦<Owned<D> as Turns<R>>⟧.faults self.new.turns) }
        ensures wanting { IsErrOf result ListFault.Memory → ⟦<Owned<D> as Turns<R>>⟧.faults self.new.turns ≡ ⟦<Owned<D> as Turns<R>>⟧.faults self.old.turns }
    {
        list_txns(rt, alloc, &mut self.turns)
    }
}
