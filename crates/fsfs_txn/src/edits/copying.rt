//! Copies.
ghost use Rattle.std.specs.Prelude.{◌≡◌, ◌++◌, ◌∷◌, [], None};
ghost use Rattle.fsfs_revision.specs.Told.{Keeps};
ghost use Rattle.fsfs_model.specs.Flat.Edits.{parent};
ghost use Rattle.fsfs_txn_nodes.specs.Memory.Written.{HasFiles};
ghost use Rattle.fsfs_draft.specs.Causes as causes;
ghost use Rattle.fsfs_txn.specs.Spending.{IsSpentAfter, IsCounted, StaysSpent, HasDiskCause, HasBenchCause};
ghost use Rattle.fsfs_txn.specs.Edits.Copying.{outcome_of, is_copied, barred_by, CopiesIn, Copies, MeetsCopying};

use crate::edits::above::{Above, is_taken, look_above};
use crate::edits::sources::{Source, is_plain, source_at};
use crate::paths::last_name;
use crate::txn::Txn;
use crate::txn_error::TxnError;
use fsfs_base::{FsPath, RevNum};
use fsfs_draft::{EditError, Own, Step};
use fsfs_edit::copy_at;
use fsfs_noderev::CopySource;
use fsfs_revision::Book;
use fsfs_txn_nodes::OwnFiles;
use std::alloc::Global;

/// What became of a copy: it was put, or why it can't be.
#[derive(Clone, Copy)]
pub enum Copied {
    Done,
    /// So many names of the path above the target lead to nothing.
    NotFound(usize),
    /// So many names of the path above the target lead to a file.
    NotDir(usize),
    /// Something stands at the target.
    Exists,
    /// There is no such revision; this is the youngest.
    NoRev(RevNum),
    /// So many names of the source's path lead to nothing.
    SourceNotFound(usize),
    /// So many names of the source's path lead to a file.
    SourceNotDir(usize),
    /// A directory that would be changed has counts of mergeinfo, or the base's root or the source has.
    Mergeinfo,
    /// The directory has 1,048,576 entries, or more.
    TooManyEntries,
}

fn from_copied(copied: fsfs_edit::Copied) -> Copied
    ensures { result ≡ outcome_of copied }
{
    match copied {
        fsfs_edit::Copied::Done => Copied::Done,
        fsfs_edit::Copied::NotFound(depth) => Copied::NotFound(depth),
        fsfs_edit::Copied::NotDir(depth) => Copied::NotDir(depth),
        fsfs_edit::Copied::Exists => Copied::Exists,
        fsfs_edit::Copied::NoRev(youngest) => Copied::NoRev(youngest),
        fsfs_edit::Copied::SourceNotFound(depth) => Copied::SourceNotFound(depth),
        fsfs_edit::Copied::SourceNotDir(depth) => Copied::SourceNotDir(depth),
        fsfs_edit::Copied::TooManyEntries => Copied::TooManyEntries,
    }
}

fn was_copied(outcome: &Copied) -> bool
    ensures { result ≡ is_copied outcome.now }
{
    match outcome {
        Copied::Done => true,
        Copied::NotFound(_) => false,
        Copied::NotDir(_) => false,
        Copied::Exists => false,
        Copied::NoRev(_) => false,
        Copied::SourceNotFound(_) => false,
        Copied::SourceNotDir(_) => false,
        Copied::Mergeinfo => false,
        Copied::TooManyEntries => false,
    }
}

// Why what stands at the source can't be copied; where it can, counts of mergeinfo are in the way.
fn barred_by(source: Source) -> Copied
    ensures { result ≡ barred_by source }
{
    match source {
        Source::NoRev(youngest) => Copied::NoRev(youngest),
        Source::NotFound(depth) => Copied::SourceNotFound(depth),
        Source::NotDir(depth) => Copied::SourceNotDir(depth),
        Source::Node { .. } => Copied::Mergeinfo,
    }
}

// Puts a copy under a name of a directory on whose way no counts of mergeinfo are met.
fn copy_in<B: Book, N: Own>(
    alloc: Global,
    book: &mut B,
    own: &mut N,
    dir: &FsPath,
    step: &Step,
    name: &str,
    from: &CopySource,
) -> Result<Copied, EditError>
    requires whole { N.folder own.old ≡ N.settled own.old }
    ensures copies { CopiesIn (B.told book.old).revs (B.told book.old).youngest (N.txn own.old) (N.settled own.old) (N.settled own.new) dir.now name.now step.now from.now result }
    ensures name { N.txn own.new ≡ N.txn own.old }
    ensures bench { causes.HasBenchCause (N.faults own.old) (N.faults own.new) result }
    ensures kept { Keeps (B.told book.old) (B.told book.new) }
    ensures cause { causes.HasDiskCause (B.faults book.old) (B.faults book.new) result }
{
    let source = source_at(alloc, book, from)?;
    if is_plain(&source) {
        let copied = copy_at(alloc, book, own, dir, name, from)?;
        return Ok(from_copied(copied));
    }
    if is_taken(alloc, book, &*own, step, name)? {
        return Ok(Copied::Exists);
    }
    Ok(barred_by(source))
}

// Puts a copy at a path with this last name. What an earlier failure left unsettled is forgotten first.
fn copy_named<B: Book, N: Own>(
    alloc: Global,
    book: &mut B,
    own: &mut N,
    path: &FsPath,
    name: &str,
    from: &CopySource,
) -> Result<Copied, EditError>
    requires last { path.now ≡ parent path.now ++ name.now ∷ [] }
    ensures copies { Copies (B.told book.old).revs (B.told book.old).youngest (N.txn own.old) (N.settled own.old) (N.settled own.new) path.now from.now result }
    ensures name { N.txn own.new ≡ N.txn own.old }
    ensures bench { causes.HasBenchCause (N.faults own.old) (N.faults own.new) result }
    ensures kept { Keeps (B.told book.old) (B.told book.new) }
    ensures cause { causes.HasDiskCause (B.faults book.old) (B.faults book.new) result }
{
    match look_above(alloc, book, own, path, name)? {
        Above::NotFound(depth) => Ok(Copied::NotFound(depth)),
        Above::NotDir(depth) => Ok(Copied::NotDir(depth)),
        Above::Counted { taken } => {
            if taken {
                return Ok(Copied::Exists);
            }
            let source = source_at(alloc, book, from)?;
            Ok(barred_by(source))
        }
        Above::Dir { parent, step } => copy_in(alloc, book, own, &parent, &step, name, from),
    }
}

impl<N: OwnFiles> Txn<N> {
    /// Puts a copy of what stands at a path of a revision at another path; nothing below is copied. It is refused where the path
    /// above the target leads to no directory, where something stands there, where there is no such revision, where nothing stands
    /// at the source, where counts of mergeinfo would have to change, or where the directory is full, in this order. A refusal leaves
    /// the transaction as it was, and so does every failure but the bench's, which spends it.
    pub fn copy<B: Book>(
        &mut self,
        alloc: Global,
        book: &mut B,
        from: &CopySource,
        to: &FsPath,
    ) -> Result<Copied, TxnError>
        ensures meets { self.old.spent ≡ None → MeetsCopying (B.told book.old).revs (B.told book.old).youngest self.old.base (N.txn self.old.own) (N.settled self.old.own) (N.settled self.new.own) to.now from.now result }
        ensures stays { StaysSpent self.old.spent result (self.new ≡ self.old) }
        ensures spent { IsSpentAfter self.old.spent self.new.spent result }
        ensures moves { IsCounted is_copied self.old.moves self.new.moves result }
        ensures base { self.new.base ≡ self.old.base }
        // The bench's files are those of what the transaction holds, whatever is answered, as long as the bench has not failed.
        ensures folder { HasFiles (N.faults self.new.own) (N.files self.new.own) (N.settled self.new.own) }
        ensures name { N.txn self.new.own ≡ N.txn self.old.own }
        ensures bench { HasBenchCause (N.faults self.old.own) (N.faults self.new.own) result }
        ensures kept { Keeps (B.told book.old) (B.told book.new) }
        ensures cause { HasDiskCause (B.faults book.old) (B.faults book.new) result }
    {
        let moves = match self.next_move() {
            Ok(moves) => moves,
            Err(error) => return Err(error),
        };
        let Some(name) = last_name(to) else {
            return Ok(Copied::Exists);
        };
        match copy_named(alloc, book, &mut self.own, to, name, from) {
            Ok(outcome) => {
                self.count(moves, was_copied(&outcome));
                Ok(outcome)
            }
            Err(error) => Err(self.failed(error)),
        }
    }
}
