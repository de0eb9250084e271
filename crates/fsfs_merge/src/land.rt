//! The merge of a transaction with a later revision.
ghost use Rattle.std.specs.Prelude.{◌≡◌, ◌≤◌, ◌<◌, ℕ, List, Ok};
ghost use Rattle.fsfs_revision.specs.Ancestry.Trees.{ShowTrees};
ghost use Rattle.fsfs_base.specs.Paths.{Path};
ghost use Rattle.fsfs_revision.specs.Told.{RevisionBytes, Knows, Keeps};
ghost use Rattle.fsfs_merge.specs.Clash.Points.{Point};
ghost use Rattle.fsfs_draft.specs.Edits.{IsDraftAfter};
ghost use Rattle.fsfs_model.specs.Flat.Transactions.{IsTransaction};
ghost use Rattle.fsfs_model.specs.declared.flat.mark.Mark.{Mark};
ghost use Rattle.fsfs_draft.specs.Causes.{HasDiskCause, HasBenchCause};
ghost use Rattle.fsfs_tree.specs.Nodes.{TreeFunction};
ghost use Rattle.fsfs_merge.specs.Landings.{LeavesLanded, TellsMerge};

use crate::Merge;
use crate::clash::walk::find_merge;
use crate::relink::{Relink, write};
use fsfs_base::{FsPath, RevNum};
use fsfs_draft::EditError;
use fsfs_revision::Book;
use std::alloc::Global;

/// What became of a transaction over a later revision.
#[derive(Drop)]
pub enum Outcome {
    /// The two clash here first, and the transaction is as before.
    Clash(FsPath),
    /// The transaction is one over the later revision.
    Landed,
}

// Looks for a clash, and where there is none writes.
fn merge_steps<B: Book, N: Relink>(
    alloc: Global,
    book: &mut B,
    own: &mut N,
    base: RevNum,
    head: RevNum,
) -> Result<Outcome, EditError>
    requires whole { N.folder own.old ≡ N.settled own.old }
    ensures draft { (look : RevisionBytes) (top : ℕ) (trees : ℕ → TreeFunction) (tree : TreeFunction) (marks : List Mark) → Knows (B.told book.old).revs top look → ShowTrees look top trees → base < head → head ≤ top → IsTransaction trees top base tree marks → IsDraftAfter look trees top base (N.txn own.old) (N.settled own.old) tree marks → LeavesLanded look trees top base head (N.txn own.old) tree marks (N.settled own.old) (N.settled own.new) result }
    ensures told { (look : RevisionBytes) (top : ℕ) (see : Path → Point) → Knows (B.told book.old).revs top look → base ≤ top → head ≤ top → TellsMerge look top (N.txn own.old) base head see (N.settled own.old) (N.settled own.new) result }
    ensures name { N.txn own.new ≡ N.txn own.old }
    ensures bench { HasBenchCause (N.faults own.old) (N.faults own.new) result }
    ensures kept { Keeps (B.told book.old) (B.told book.new) }
    ensures cause { HasDiskCause (B.faults book.old) (B.faults book.new) result }
{
    let found = find_merge(alloc, book, &*own, base, head)?;
    match found {
        Merge::Clash(path) => Ok(Outcome::Clash(path)),
        Merge::Dirs(dirs) => {
            write(own, dirs)?;
            Ok(Outcome::Landed)
        }
    }
}

/// Merges a transaction over the base with a later revision: where the two clash, the answer is the first path, in the order of
/// paths, and the transaction is as before; else it is a transaction over the later revision from then on. (svn_fs.h,
/// svn_fs_merge; what clashes is this project's profile.) A head that is the base asks for nothing: nothing is read or written.
///
/// A reading that fails or is wrong, a directory that the transaction lacks, or want of memory leaves it as before. Where the
/// bench fails nothing is known of its files: it is spent.
pub fn merge<B: Book, N: Relink>(
    alloc: Global,
    book: &mut B,
    own: &mut N,
    base: RevNum,
    head: RevNum,
) -> Result<Outcome, EditError>
    requires whole { N.folder own.old ≡ N.settled own.old }
    // Where the folder holds a draft, over a history that the bytes show: the flat model's first clash, or a draft of its landing,
    // with the same marks; and nothing is wrong.
    ensures draft { (look : RevisionBytes) (top : ℕ) (trees : ℕ → TreeFunction) (tree : TreeFunction) (marks : List Mark) → Knows (B.told book.old).revs top look → ShowTrees look top trees → base < head → head ≤ top → IsTransaction trees top base tree marks → IsDraftAfter look trees top base (N.txn own.old) (N.settled own.old) tree marks → LeavesLanded look trees top base head (N.txn own.old) tree marks (N.settled own.old) (N.settled own.new) result }
    // Whatever the bytes and the folder are, the answer is the one of what is seen there.
    ensures told { (look : RevisionBytes) (top : ℕ) (see : Path → Point) → Knows (B.told book.old).revs top look → base ≤ top → head ≤ top → (base ≡ head → ⊥) → TellsMerge look top (N.txn own.old) base head see (N.settled own.old) (N.settled own.new) result }
    ensures at_base { base ≡ head → (result ≡ Ok Outcome.Landed) × (N.settled own.new ≡ N.settled own.old) }
    ensures whole { N.folder own.new ≡ N.settled own.new }
    ensures name { N.txn own.new ≡ N.txn own.old }
    ensures bench { HasBenchCause (N.faults own.old) (N.faults own.new) result }
    ensures kept { Keeps (B.told book.old) (B.told book.new) }
    ensures cause { HasDiskCause (B.faults book.old) (B.faults book.new) result }
{
    if base.get() == head.get() {
        return Ok(Outcome::Landed);
    }
    let outcome = merge_steps(alloc, book, own, base, head);
    own.forget();
    outcome
}
