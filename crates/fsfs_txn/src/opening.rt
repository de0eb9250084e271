//! Nodes of a transaction that were opened.
ghost use Rattle.std.specs.Prelude.{◌≡◌, ◌≤◌, ℕ, List, None};
ghost use Rattle.fsfs_tree.specs.Nodes.{TreeFunction};
ghost use Rattle.fsfs_tree.specs.Trees.{IsTree};
ghost use Rattle.fsfs_model.specs.declared.flat.mark.Mark.{Mark};
ghost use Rattle.fsfs_draft.specs.Drafts.{ShowTrees};
ghost use Rattle.fsfs_draft.specs.Edits.{IsDraftAfter};
ghost use Rattle.fsfs_revision.specs.Told.{RevisionBytes, Knows, Keeps};
ghost use Rattle.fsfs_draft.specs.Causes as causes;
ghost use Rattle.fsfs_txn.specs.Opened.Knowing.{AreKnown};
ghost use Rattle.fsfs_txn.specs.Opened.Leading.{Leads};
ghost use Rattle.fsfs_txn.specs.Spending.{IsSpentAfter, StaysSpent, HasDiskCause, HasBenchCause};
ghost use Rattle.fsfs_txn.specs.Leading.{OpensLeading};
ghost use Rattle.fsfs_txn.specs.Opening.{OpensPath, MeetsOpening, IfOpenedPath};

use crate::Way;
use crate::opened::opening::way_to;
use crate::seeing::{Seen, seen_on};
use crate::txn::Txn;
use crate::txn_error::TxnError;
use fsfs_base::{FsPath, Kind};
use fsfs_draft::{EditError, Own};
use fsfs_revision::Book;
use std::alloc::Global;

/// A node of a transaction that was opened: the way to it, with what is known of the revisions on it, how many moves the transaction
/// had made, its kind, and whether counts of mergeinfo are met on the way.
#[derive(Drop)]
pub struct Opened {
    pub(crate) way: Way,
    pub(crate) moves: u64,
    pub(crate) kind: Kind,
    pub(crate) counted: bool,
}

/// What became of an opening.
#[derive(Drop)]
pub enum PathOpened {
    Node(Opened),
    /// So many names of the path lead to nothing.
    NotFound(usize),
    /// So many names of the path lead to a file, and more follow.
    NotDir(usize),
}

// Opens what stands at a path. What an earlier failure left unsettled is forgotten first.
fn open_settled<B: Book, N: Own>(
    alloc: Global,
    book: &mut B,
    own: &mut N,
    path: &FsPath,
    moves: u64,
) -> Result<PathOpened, EditError>
    ensures opens { OpensPath (B.told book.old).revs (N.txn own.old) (N.settled own.old) path.now result }
    ensures opened { IfOpenedPath result (λ opened. (opened.way.path ≡ path.now) × (opened.moves ≡ moves)) }
    ensures known { (look : RevisionBytes) (top : ℕ) → Knows (B.told book.old).revs top look → IfOpenedPath result (λ opened. AreKnown look top opened.way.known.items) }
    ensures leads { (look : RevisionBytes) (trees : ℕ → TreeFunction) (top base : ℕ) (tree : TreeFunction) (marks : List Mark) → Knows (B.told book.old).revs top look → ShowTrees look top trees → base ≤ top → IsTree tree → IsDraftAfter look trees top base (N.txn own.old) (N.settled own.old) tree marks → IfOpenedPath result (λ opened. Leads look (N.txn own.old) (N.settled own.old) opened.way) }
    ensures settled { N.settled own.new ≡ N.settled own.old }
    ensures name { N.txn own.new ≡ N.txn own.old }
    ensures bench { causes.HasBenchCause (N.faults own.old) (N.faults own.new) result }
    ensures kept { Keeps (B.told book.old) (B.told book.new) }
    ensures cause { causes.HasDiskCause (B.faults book.old) (B.faults book.new) result }
{
    own.forget();
    match seen_on(alloc, book, &*own, path)? {
        Seen::Absent(depth) => Ok(PathOpened::NotFound(depth)),
        Seen::File(depth) => Ok(PathOpened::NotDir(depth)),
        Seen::Node { child, counted } => {
            let way = way_to(alloc, book, &*own, path)?;
            Ok(PathOpened::Node(Opened {
                way,
                moves,
                kind: child.kind,
                counted,
            }))
        }
    }
}

impl<N: Own> Txn<N> {
    /// Opens what stands at a path of the transaction's tree: all that a text or a property put there wants of the revisions is read.
    /// Nothing is changed; a failure of the bench spends the transaction.
    pub fn open_path<B: Book>(
        &mut self,
        alloc: Global,
        book: &mut B,
        path: &FsPath,
    ) -> Result<PathOpened, TxnError>
        ensures meets { self.old.spent ≡ None → MeetsOpening (B.told book.old).revs self.old.base (N.txn self.old.own) (N.settled self.old.own) path.now result }
        ensures known { (look : RevisionBytes) (top : ℕ) → Knows (B.told book.old).revs top look → IfOpenedPath result (λ opened. AreKnown look top opened.way.known.items) }
        ensures leads { self.old.spent ≡ None → OpensLeading (B.told book.old).revs self.old.base (N.txn self.old.own) (N.settled self.old.own) result }
        ensures opened { IfOpenedPath result (λ opened. (opened.way.path ≡ path.now) × (opened.moves ≡ self.old.moves)) }
        ensures settled { N.settled self.new.own ≡ N.settled self.old.own }
        ensures stays { StaysSpent self.old.spent result (self.new ≡ self.old) }
        ensures spent { IsSpentAfter self.old.spent self.new.spent result }
        ensures moves { self.new.moves ≡ self.old.moves }
        ensures base { self.new.base ≡ self.old.base }
        ensures name { N.txn self.new.own ≡ N.txn self.old.own }
        ensures bench { HasBenchCause (N.faults self.old.own) (N.faults self.new.own) result }
        ensures kept { Keeps (B.told book.old) (B.told book.new) }
        ensures cause { HasDiskCause (B.faults book.old) (B.faults book.new) result }
    {
        if let Some(first) = self.spent {
            return Err(TxnError::Spent { first });
        }
        match open_settled(alloc, book, &mut self.own, path, self.moves) {
            Ok(opened) => Ok(opened),
            Err(error) => Err(self.failed(error)),
        }
    }
}
