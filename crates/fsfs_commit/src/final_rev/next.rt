//! The bytes of the revision that a transaction becomes.
ghost use Rattle.std.specs.Prelude.{◌≡◌, ℕ, List, IfErr};
ghost use Rattle.fsfs_tree.specs.Nodes.{TreeFunction};
ghost use Rattle.fsfs_model.specs.declared.flat.mark.Mark.{Mark};
ghost use Rattle.fsfs_revision.specs.Told.{RevisionBytes};
ghost use Rattle.fsfs_commit.specs.FinalRev.Next.{IsOnYoungest};
ghost use Rattle.fsfs_commit.specs.FinalRev.Rooms.{IsWithinRoom};
ghost use Rattle.fsfs_commit.specs.FinalRev.Texts.{IsFinalText, IsWrittenText, HasPathPast, IfPastLimit, HasSinkCause};

use crate::final_rev::error::FinalError;
use crate::final_rev::writing::final_bytes;
use fsfs_base::{RevNum, Sink};
use fsfs_draft::Own;
use fsfs_noderev::ChangeItem;
use fsfs_txn::Txn;
use std::alloc::Global;

/// Writes the bytes of revision `rev` that follow the prototype file, which has `start` bytes, of a transaction on the revision
/// before: these are the items that its edits left. It gives the own node-revisions back; what a call that failed had begun of
/// them is forgotten.
pub fn next_bytes<N: Own, S: Sink>(
    alloc: Global,
    txn: Txn<N>,
    items: &[ChangeItem],
    rev: RevNum,
    start: u64,
    sink: &mut S,
) -> (N, Result<(), FinalError>)
    // Of a transaction as its calls leave it, on the youngest revision, they are the next one.
    ensures written { (look : RevisionBytes) (trees : ℕ → TreeFunction) (tree : TreeFunction) (marks : List Mark) → (is : IsOnYoungest look trees txn.base (N.txn txn.own) (N.settled txn.own) tree marks rev start items.now)
        → IsWrittenText (λ text. IsFinalText look trees txn.base (N.settled txn.own).proto tree marks items.now text × IsWithinRoom is.stands.shows.0.shows.own items.now text) (S.written sink.old) (S.written sink.new) result.1 }
    ensures settled { N.settled result.0 ≡ N.settled txn.own }
    ensures name { N.txn result.0 ≡ N.txn txn.own }
    ensures limit { IfErr result.1 (IfPastLimit (HasPathPast (N.settled txn.own) items.now)) }
    ensures cause { HasSinkCause (S.faults sink.old) (S.faults sink.new) result.1 }
{
    let mut own = txn.into_own();
    own.forget();
    let done = final_bytes(alloc, &own, items, rev, start, sink);
    (own, done)
}
