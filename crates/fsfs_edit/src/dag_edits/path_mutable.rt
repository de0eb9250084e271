//! How all that stands on the way down a path becomes the transaction's own.
ghost use Rattle.std.specs.Prelude.{◌≡◌, ◌≤◌, ◌++◌, ◌∷◌, [], ℕ, Some, true, is_some, OnOk};
ghost use Rattle.fsfs_tree.specs.Nodes.{TreeFunction};
ghost use Rattle.fsfs_revision.specs.Told.{RevisionBytes, Knows, Keeps};
ghost use Rattle.fsfs_draft.specs.Own.{Own as Owns, OwnNode, draft_tree};
ghost use Rattle.fsfs_draft.specs.Drafts.{IsDraft, ShowTrees};
ghost use Rattle.fsfs_edit.specs.DagEdits.Mutable.{LeadsTo, LeavesAbove};
ghost use Rattle.fsfs_draft.specs.Causes.{HasDiskCause, HasBenchCause};

use crate::dag_edits::mutable::make_mutable;
use fsfs_base::FsPath;
use fsfs_draft::{EditError, Own};
use fsfs_noderev::NodeId;
use fsfs_revision::Book;
use std::alloc::Global;

/// Makes what stands on the way from the root to the path the transaction's own, and answers the id of what stands at the path.
pub fn bubble_up<B: Book, N: Own>(
    alloc: Global,
    book: &mut B,
    own: &mut N,
    root: &NodeId,
    path: &FsPath,
) -> Result<NodeId, EditError>
    // Where the folder holds a draft and the path leads down its tree, the tree stays as it is, and no reading is wrong.
    ensures draft { (look : RevisionBytes) (trees : ℕ → TreeFunction) (top base : ℕ) (nodes : Owns) (v : OwnNode) → Knows (B.told book.old).revs top look → ShowTrees look top trees → base ≤ top → IsDraft look top base (N.txn own.old) (N.folder own.old) nodes → nodes [] ≡ Some v → v.node.id ≡ root.now → LeadsTo (draft_tree trees nodes (trees base)) path.now → LeavesAbove look trees top base (N.txn own.old) (N.folder own.old) nodes path.now (N.folder own.new) result }
    ensures proto { OnOk result ((N.folder own.new).proto ≡ (N.folder own.old).proto) }
    ensures settled { N.settled own.new ≡ N.settled own.old }
    ensures name { N.txn own.new ≡ N.txn own.old }
    ensures bench { HasBenchCause (N.faults own.old) (N.faults own.new) result }
    ensures kept { Keeps (B.told book.old) (B.told book.new) }
    ensures cause { HasDiskCause (B.faults book.old) (B.faults book.new) result }
{
    let mut id = *root;
    for name in path.names() {
        id = make_mutable(alloc, book, own, &id, name)?;
    }
    Ok(id)
}
