//! A transaction, and what its calls leave of it beside its own node-revisions.
ghost use Rattle.std.specs.Prelude.{◌≡◌, None, if◌then◌else◌, is_some};
ghost use Rattle.fsfs_txn.specs.Spending.{IsReady, spends};
ghost use Rattle.fsfs_txn.specs.declared.txn_error.TxnError.TheVariants.{Fault};

use crate::txn_error::TxnError;
use fsfs_base::{Failed, RevNum, TxnName};
use fsfs_draft::{EditError, Own};

/// A transaction: edits on a revision, its base, kept by its own node-revisions. It stands for its base, its tree and its marks.
#[derive(Drop)]
pub struct Txn<N> {
    pub(crate) own: N,
    pub(crate) base: RevNum,
    /// How many nodes were made, copied or taken away, and how often it landed on a later revision. The count stops a call before
    /// it comes to its end.
    pub(crate) moves: u64,
    /// The first failure of its bench.
    pub(crate) spent: Option<Failed>,
}

impl<N: Own> Txn<N> {
    /// The transaction of these node-revisions on a base.
    pub fn new(own: N, base: RevNum) -> Txn<N>
        ensures own { result.own ≡ own }
        ensures base { result.base ≡ base }
        ensures moves { result.moves ≡ 0 }
        ensures spent { result.spent ≡ None }
    {
        Txn {
            own,
            base,
            moves: 0,
            spent: None,
        }
    }

    /// Its name.
    pub fn name(&self) -> TxnName
        ensures { result ≡ N.txn self.now.own }
    {
        self.own.name()
    }

    /// Its base.
    pub fn base(&self) -> RevNum
        ensures { result ≡ self.now.base }
    {
        self.base
    }

    /// Whether its bench has failed.
    pub fn is_spent(&self) -> bool
        ensures { result ≡ is_some self.now.spent }
    {
        self.spent.is_some()
    }

    /// Its own node-revisions.
    pub fn into_own(self) -> N
        ensures { result ≡ self.own }
    {
        let Txn { own, .. } = self;
        own
    }

    // The count after a move more. An `Err` is for a spent transaction, and for a number that there is no room for.
    pub(crate) fn next_move(&self) -> Result<u64, TxnError>
        ensures { IsReady self.now.spent self.now.moves result }
    {
        if let Some(first) = self.spent {
            return Err(TxnError::Spent { first });
        }
        match self.moves.checked_add(1) {
            Some(moves) => Ok(moves),
            None => Err(TxnError::Fault(EditError::OutOfMemory)),
        }
    }

    // Notes the count of moves, where an edit was one.
    pub(crate) fn count(&mut self, moves: u64, moved: bool)
        ensures { self.new ≡ record self.old { moves = if moved then moves else self.old.moves } }
    {
        if moved {
            self.moves = moves;
        }
    }

    // Notes a failure of the bench, and tells the failure.
    pub(crate) fn failed(&mut self, error: EditError) -> TxnError
        ensures error { result ≡ Fault error }
        ensures spent { self.new ≡ record self.old { spent = spends error self.old.spent } }
    {
        match error {
            EditError::BenchFault => {
                self.spent = Some(Failed);
                TxnError::Fault(error)
            }
            EditError::OutOfMemory => TxnError::Fault(error),
            EditError::DiskFault => TxnError::Fault(error),
            EditError::Wrong(_) => TxnError::Fault(error),
            EditError::Lacking => TxnError::Fault(error),
        }
    }
}
