//! What a transaction is written behind.
ghost use Rattle.std.specs.Prelude.{◌≡◌, length, IfOk, IfSome};
ghost use Rattle.fsfs_base.specs.Failures.{HasCause};

use crate::txn::Txn;
use fsfs_base::Failed;
use fsfs_disk::Bench;
use fsfs_draft::Own;
use fsfs_txn_nodes::HeldNodes;

impl<N: Own> Txn<N> {
    /// Its own node-revisions, as they are.
    pub fn own(&self) -> &N
        ensures { result.now ≡ self.now.own }
    {
        &self.own
    }

    /// Forgets what a call that failed had begun.
    pub fn forget(&mut self)
        ensures folder { N.folder self.new.own ≡ N.settled self.old.own }
        ensures settled { N.settled self.new.own ≡ N.settled self.old.own }
        ensures quiet { N.faults self.new.own ≡ N.faults self.old.own }
        ensures name { N.txn self.new.own ≡ N.txn self.old.own }
        ensures rest { self.new ≡ record self.old { own = self.new.own } }
    {
        self.own.forget();
    }
}

impl<D: Bench> Txn<HeldNodes<D>> {
    /// How many bytes its prototype file has; none where there is no such file.
    pub fn proto_length(&mut self) -> Result<u64, Failed>
        ensures length { IfSome (D.contents self.old.own.bench) (λ m. IfOk result (λ n. n ≡ length (⟦<HeldNodes<D> as Own>⟧.settled self.old.own).proto)) }
        ensures folder { ⟦<HeldNodes<D> as Own>⟧.folder self.new.own ≡ ⟦<HeldNodes<D> as Own>⟧.folder self.old.own }
        ensures settled { ⟦<HeldNodes<D> as Own>⟧.settled self.new.own ≡ ⟦<HeldNodes<D> as Own>⟧.settled self.old.own }
        ensures name { ⟦<HeldNodes<D> as Own>⟧.txn self.new.own ≡ ⟦<HeldNodes<D> as Own>⟧.txn self.old.own }
        ensures rest { self.new ≡ record self.old { own = self.new.own } }
        ensures cause { HasCause (⟦<HeldNodes<D> as Own>⟧.faults self.old.own) (⟦<HeldNodes<D> as Own>⟧.faults self.new.own) result }
    {
        self.own.proto_length()
    }
}
