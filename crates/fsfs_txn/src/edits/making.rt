//! New directories and files.
ghost use Rattle.std.specs.Prelude.{◌≡◌, ◌++◌, ◌∷◌, [], None};
ghost use Rattle.fsfs_base.specs.declared.kind.Kind.TheVariants as kinds;
ghost use Rattle.fsfs_revision.specs.Told.{Keeps};
ghost use Rattle.fsfs_model.specs.Flat.Edits.{parent};
ghost use Rattle.fsfs_txn_nodes.specs.Memory.Written.{HasFiles};
ghost use Rattle.fsfs_draft.specs.Causes as causes;
ghost use Rattle.fsfs_txn.specs.Spending.{IsSpentAfter, IsCounted, StaysSpent, HasDiskCause, HasBenchCause};
ghost use Rattle.fsfs_txn.specs.Edits.Making.{outcome_of, is_made, Makes, MeetsMaking};

use crate::edits::above::{Above, look_above};
use crate::paths::last_name;
use crate::txn::Txn;
use crate::txn_error::TxnError;
use fsfs_base::{FsPath, Kind};
use fsfs_draft::{EditError, Own};
use fsfs_edit::make_at;
use fsfs_revision::Book;
use fsfs_txn_nodes::OwnFiles;
use std::alloc::Global;

/// What became of a new node: it was made, or why it can't be.
#[derive(Clone, Copy, Debug, PartialEq, Eq)]
pub enum Made {
    Done,
    /// So many names of the path above lead to nothing.
    NotFound(usize),
    /// So many names of the path above lead to a file.
    NotDir(usize),
    /// Something stands there.
    Exists,
    /// A directory that would be changed has counts of mergeinfo, or the base's root has.
    Mergeinfo,
    /// The directory has 1,048,576 entries, or more.
    TooManyEntries,
}

fn from_made(made: fsfs_edit::Made) -> Made
    ensures { result ≡ outcome_of made }
{
    match made {
        fsfs_edit::Made::Done => Made::Done,
        fsfs_edit::Made::NotFound(depth) => Made::NotFound(depth),
        fsfs_edit::Made::NotDir(depth) => Made::NotDir(depth),
        fsfs_edit::Made::Exists => Made::Exists,
        fsfs_edit::Made::TooManyEntries => Made::TooManyEntries,
    }
}

fn was_made(outcome: &Made) -> bool
    ensures { result ≡ is_made outcome.now }
{
    match outcome {
        Made::Done => true,
        Made::NotFound(_) => false,
        Made::NotDir(_) => false,
        Made::Exists => false,
        Made::Mergeinfo => false,
        Made::TooManyEntries => false,
    }
}

// Makes an empty node at a path with this last name. What an earlier failure left unsettled is forgotten first.
fn make_named<B: Book, N: Own>(
    alloc: Global,
    book: &mut B,
    own: &mut N,
    path: &FsPath,
    name: &str,
    kind: Kind,
) -> Result<Made, EditError>
    requires last { path.now ≡ parent path.now ++ name.now ∷ [] }
    ensures makes { Makes (B.told book.old).revs (N.txn own.old) (N.settled own.old) (N.settled own.new) path.now kind result }
    ensures name { N.txn own.new ≡ N.txn own.old }
    ensures bench { causes.HasBenchCause (N.faults own.old) (N.faults own.new) result }
    ensures kept { Keeps (B.told book.old) (B.told book.new) }
    ensures cause { causes.HasDiskCause (B.faults book.old) (B.faults book.new) result }
{
    match look_above(alloc, book, own, path, name)? {
        Above::NotFound(depth) => Ok(Made::NotFound(depth)),
        Above::NotDir(depth) => Ok(Made::NotDir(depth)),
        Above::Counted { taken } => {
            if taken {
                return Ok(Made::Exists);
            }
            Ok(Made::Mergeinfo)
        }
        Above::Dir { parent, .. } => {
            let made = make_at(alloc, book, own, &parent, name, kind)?;
            Ok(from_made(made))
        }
    }
}

impl<N: OwnFiles> Txn<N> {
    // Makes an empty node of a kind.
    fn make<B: Book>(
        &mut self,
        alloc: Global,
        book: &mut B,
        path: &FsPath,
        kind: Kind,
    ) -> Result<Made, TxnError>
        ensures meets { self.old.spent ≡ None → MeetsMaking (B.told book.old).revs self.old.base (N.txn self.old.own) (N.settled self.old.own) (N.settled self.new.own) path.now kind result }
        ensures stays { StaysSpent self.old.spent result (self.new ≡ self.old) }
        ensures spent { IsSpentAfter self.old.spent self.new.spent result }
        ensures moves { IsCounted is_made self.old.moves self.new.moves result }
        ensures base { self.new.base ≡ self.old.base }
        ensures folder { HasFiles (N.faults self.new.own) (N.files self.new.own) (N.settled self.new.own) }
        ensures name { N.txn self.new.own ≡ N.txn self.old.own }
        ensures bench { HasBenchCause (N.faults self.old.own) (N.faults self.new.own) result }
        ensures kept { Keeps (B.told book.old) (B.told book.new) }
        ensures cause { HasDiskCause (B.faults book.old) (B.faults book.new) result }
    {
        let moves = match self.next_move() {
            Ok(moves) => moves,
            Err(error) => return Err(error),
        };
        let Some(name) = last_name(path) else {
            return Ok(Made::Exists);
        };
        match make_named(alloc, book, &mut self.own, path, name, kind) {
            Ok(outcome) => {
                self.count(moves, was_made(&outcome));
                Ok(outcome)
            }
            Err(error) => Err(self.failed(error)),
        }
    }

    /// Makes an empty directory at a path. It is refused where the path above leads to no directory, where something stands there,
    /// where counts of mergeinfo would have to change, or where the directory above is full, in this order. A refusal leaves the
    /// transaction as it was, and so does every failure but the bench's, which spends it.
    pub fn mkdir<B: Book>(
        &mut self,
        alloc: Global,
        book: &mut B,
        path: &FsPath,
    ) -> Result<Made, TxnError>
        ensures meets { self.old.spent ≡ None → MeetsMaking (B.told book.old).revs self.old.base (N.txn self.old.own) (N.settled self.old.own) (N.settled self.new.own) path.now kinds.Dir result }
        ensures stays { StaysSpent self.old.spent result (self.new ≡ self.old) }
        ensures spent { IsSpentAfter self.old.spent self.new.spent result }
        ensures moves { IsCounted is_made self.old.moves self.new.moves result }
        ensures base { self.new.base ≡ self.old.base }
        // The bench's files are those of what the transaction holds, whatever is answered, as long as the bench has not failed.
        ensures folder { HasFiles (N.faults self.new.own) (N.files self.new.own) (N.settled self.new.own) }
        ensures name { N.txn self.new.own ≡ N.txn self.old.own }
        ensures bench { HasBenchCause (N.faults self.old.own) (N.faults self.new.own) result }
        ensures kept { Keeps (B.told book.old) (B.told book.new) }
        ensures cause { HasDiskCause (B.faults book.old) (B.faults book.new) result }
    {
        self.make(alloc, book, path, Kind::Dir)
    }

    /// Makes an empty file at a path, with the refusals of `mkdir`.
    pub fn mkfile<B: Book>(
        &mut self,
        alloc: Global,
        book: &mut B,
        path: &FsPath,
    ) -> Result<Made, TxnError>
        ensures meets { self.old.spent ≡ None → MeetsMaking (B.told book.old).revs self.old.base (N.txn self.old.own) (N.settled self.old.own) (N.settled self.new.own) path.now kinds.File result }
        ensures stays { StaysSpent self.old.spent result (self.new ≡ self.old) }
        ensures spent { IsSpentAfter self.old.spent self.new.spent result }
        ensures moves { IsCounted is_made self.old.moves self.new.moves result }
        ensures base { self.new.base ≡ self.old.base }
        // The bench's files are those of what the transaction holds, whatever is answered, as long as the bench has not failed.
        ensures folder { HasFiles (N.faults self.new.own) (N.files self.new.own) (N.settled self.new.own) }
        ensures name { N.txn self.new.own ≡ N.txn self.old.own }
        ensures bench { HasBenchCause (N.faults self.old.own) (N.faults self.new.own) result }
        ensures kept { Keeps (B.told book.old) (B.told book.new) }
        ensures cause { HasDiskCause (B.faults book.old) (B.faults book.new) result }
    {
        self.make(alloc, book, path, Kind::File)
    }
}
