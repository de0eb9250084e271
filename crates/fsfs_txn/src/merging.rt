//! Merges with later revisions.
ghost use Rattle.std.specs.Prelude.{◌≡◌, Ok, None};
ghost use Rattle.fsfs_revision.specs.Told.{Keeps};
ghost use Rattle.fsfs_txn_nodes.specs.Memory.Written.{HasFiles};
ghost use Rattle.fsfs_draft.specs.Causes as causes;
ghost use Rattle.fsfs_merge.specs.declared.land.Outcome.TheVariants.{Landed};
ghost use Rattle.fsfs_txn.specs.Spending.{IsSpentAfter, StaysSpent, HasDiskCause, HasBenchCause};
ghost use Rattle.fsfs_txn.specs.Merging.{Merges, MeetsMerging, IsLandedOn};

use crate::txn::Txn;
use crate::txn_error::TxnError;
use fsfs_base::RevNum;
use fsfs_draft::{EditError, Own};
use fsfs_merge::{Outcome, Relink, merge};
use fsfs_revision::Book;
use fsfs_txn_nodes::OwnFiles;
use std::alloc::Global;

// Merges. What an earlier failure left unsettled is forgotten first.
fn merge_settled<B: Book, N: Relink>(
    alloc: Global,
    book: &mut B,
    own: &mut N,
    base: RevNum,
    head: RevNum,
) -> Result<Outcome, EditError>
    ensures merges { Merges (B.told book.old).revs base head (N.txn own.old) (N.settled own.old) (N.settled own.new) result }
    ensures name { N.txn own.new ≡ N.txn own.old }
    ensures bench { causes.HasBenchCause (N.faults own.old) (N.faults own.new) result }
    ensures kept { Keeps (B.told book.old) (B.told book.new) }
    ensures cause { causes.HasDiskCause (B.faults book.old) (B.faults book.new) result }
{
    own.forget();
    merge(alloc, book, own, base, head)
}

impl<N: Relink + OwnFiles> Txn<N> {
    // Notes that it landed on a revision, with so many moves.
    fn landed_on(&mut self, head: RevNum, moves: u64)
        ensures { self.new ≡ record self.old { base = head; moves = moves } }
    {
        self.base = head;
        self.moves = moves;
    }

    /// Merges the transaction with a later revision. Where the two clash, the answer is the first path at which they do, and the
    /// transaction is as before; else it stands on that revision from then on, which counts as a move. Its base asks for nothing.
    /// A failure leaves the transaction as it was, but for the bench's, which spends it. (svn_fs.h, svn_fs_merge; what clashes is
    /// this project's profile.)
    pub fn merge<B: Book>(
        &mut self,
        alloc: Global,
        book: &mut B,
        head: RevNum,
    ) -> Result<Outcome, TxnError>
        ensures meets { self.old.spent ≡ None → MeetsMerging (B.told book.old).revs self.old.base head (N.txn self.old.own) (N.settled self.old.own) (N.settled self.new.own) result }
        ensures at_base { self.old.spent ≡ None → self.old.base ≡ head → (result ≡ Ok Landed) × (self.new ≡ self.old) }
        ensures stays { StaysSpent self.old.spent result (self.new ≡ self.old) }
        ensures spent { IsSpentAfter self.old.spent self.new.spent result }
        ensures landed { IsLandedOn head self.old.base self.new.base self.old.moves self.new.moves result }
        // The bench's files are those of what the transaction holds, whatever is answered, as long as the bench has not failed.
        ensures folder { HasFiles (N.faults self.new.own) (N.files self.new.own) (N.settled self.new.own) }
        ensures name { N.txn self.new.own ≡ N.txn self.old.own }
        ensures bench { HasBenchCause (N.faults self.old.own) (N.faults self.new.own) result }
        ensures kept { Keeps (B.told book.old) (B.told book.new) }
        ensures cause { HasDiskCause (B.faults book.old) (B.faults book.new) result }
    {
        if let Some(first) = self.spent {
            return Err(TxnError::Spent { first });
        }
        if self.base.get() == head.get() {
            return Ok(Outcome::Landed);
        }
        let moves = match self.next_move() {
            Ok(moves) => moves,
            Err(error) => return Err(error),
        };
        match merge_settled(alloc, book, &mut self.own, self.base, head) {
            Ok(Outcome::Landed) => {
                self.landed_on(head, moves);
                Ok(Outcome::Landed)
            }
            Ok(Outcome::Clash(path)) => Ok(Outcome::Clash(path)),
            Err(error) => Err(self.failed(error)),
        }
    }
}
