//! Deletes.
ghost use Rattle.std.specs.Prelude.{◌≡◌, ◌++◌, ◌∷◌, [], None};
ghost use Rattle.fsfs_revision.specs.Told.{Keeps};
ghost use Rattle.fsfs_model.specs.Flat.Edits.{parent};
ghost use Rattle.fsfs_txn_nodes.specs.Memory.Written.{HasFiles};
ghost use Rattle.fsfs_draft.specs.Causes as causes;
ghost use Rattle.fsfs_txn.specs.Spending.{IsSpentAfter, IsCounted, StaysSpent, HasDiskCause, HasBenchCause};
ghost use Rattle.fsfs_txn.specs.Edits.Deleting.{is_deleted, outcome_of, Deletes, MeetsDeleting};

use crate::edits::above::{Above, look_above};
use crate::paths::last_name;
use crate::txn::Txn;
use crate::txn_error::TxnError;
use fsfs_base::FsPath;
use fsfs_draft::{EditError, Own};
use fsfs_edit::{Gone, delete_at};
use fsfs_revision::Book;
use fsfs_txn_nodes::OwnFiles;
use std::alloc::Global;

/// What became of a delete: it was done, or why it can't be.
#[derive(Clone, Copy)]
pub enum Deleted {
    Done,
    /// So many names of the path above lead to nothing.
    NotFound(usize),
    /// So many names of the path above lead to a file.
    NotDir(usize),
    /// Nothing stands there, in a directory.
    Absent,
    /// It is the root, which stays.
    RootFixed,
    /// A directory that would be changed has counts of mergeinfo, or the base's root has.
    Mergeinfo,
}

fn from_gone(gone: Gone) -> Deleted
    ensures { result ≡ outcome_of gone }
{
    match gone {
        Gone::Done => Deleted::Done,
        Gone::NotFound(depth) => Deleted::NotFound(depth),
        Gone::NotDir(depth) => Deleted::NotDir(depth),
        Gone::Absent => Deleted::Absent,
    }
}

fn was_deleted(outcome: &Deleted) -> bool
    ensures { result ≡ is_deleted outcome.now }
{
    match outcome {
        Deleted::Done => true,
        Deleted::NotFound(_) => false,
        Deleted::NotDir(_) => false,
        Deleted::Absent => false,
        Deleted::RootFixed => false,
        Deleted::Mergeinfo => false,
    }
}

// Takes away what stands at a path with this last name. What an earlier failure left unsettled is forgotten first.
fn delete_named<B: Book, N: Own>(
    alloc: Global,
    book: &mut B,
    own: &mut N,
    path: &FsPath,
    name: &str,
) -> Result<Deleted, EditError>
    requires last { path.now ≡ parent path.now ++ name.now ∷ [] }
    ensures deletes { Deletes (B.told book.old).revs (N.txn own.old) (N.settled own.old) (N.settled own.new) path.now result }
    ensures name { N.txn own.new ≡ N.txn own.old }
    ensures bench { causes.HasBenchCause (N.faults own.old) (N.faults own.new) result }
    ensures kept { Keeps (B.told book.old) (B.told book.new) }
    ensures cause { causes.HasDiskCause (B.faults book.old) (B.faults book.new) result }
{
    match look_above(alloc, book, own, path, name)? {
        Above::NotFound(depth) => Ok(Deleted::NotFound(depth)),
        Above::NotDir(depth) => Ok(Deleted::NotDir(depth)),
        Above::Counted { taken } => {
            if taken {
                return Ok(Deleted::Mergeinfo);
            }
            Ok(Deleted::Absent)
        }
        Above::Dir { parent, .. } => {
            let gone = delete_at(alloc, book, own, &parent, name)?;
            Ok(from_gone(gone))
        }
    }
}

impl<N: OwnFiles> Txn<N> {
    /// Takes away what stands at a path, and all below it. It is refused where the path above leads to no directory, where nothing
    /// stands there, where it is the root, or where counts of mergeinfo would have to change, in this order. A refusal leaves the
    /// transaction as it was, and so does every failure but the bench's, which spends it.
    pub fn delete<B: Book>(
        &mut self,
        alloc: Global,
        book: &mut B,
        path: &FsPath,
    ) -> Result<Deleted, TxnError>
        ensures meets { self.old.spent ≡ None → MeetsDeleting (B.told book.old).revs self.old.base (N.txn self.old.own) (N.settled self.old.own) (N.settled self.new.own) path.now result }
        ensures stays { StaysSpent self.old.spent result (self.new ≡ self.old) }
        ensures spent { IsSpentAfter self.old.spent self.new.spent result }
        ensures moves { IsCounted is_deleted self.old.moves self.new.moves result }
        ensures base { self.new.base ≡ self.old.base }
        // The bench's files are those of what the transaction holds, whatever is answered, as long as the bench has not failed.
        ensures folder { HasFiles (N.faults self.new.own) (N.files self.new.own) (N.settled self.new.own) }
        ensures name { N.txn self.new.own ≡ N.txn self.old.own }
        ensures bench { HasBenchCause (N.faults self.old.own) (N.faults self.new.own) result }
        ensures kept { Keeps (B.told book.old) (B.told book.new) }
        ensures cause { HasDiskCause (B.faults book.old) (B.faults book.new) result }
    {
        let moves = match self.next_move() {
            Ok(moves) => moves,
            Err(error) => return Err(error),
        };
        let Some(name) = last_name(path) else {
            return Ok(Deleted::RootFixed);
        };
        match delete_named(alloc, book, &mut self.own, path, name) {
            Ok(outcome) => {
                self.count(moves, was_deleted(&outcome));
                Ok(outcome)
            }
            Err(error) => Err(self.failed(error)),
        }
    }
}
