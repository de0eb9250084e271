//! Deletes.
ghost use Rattle.std.specs.Prelude.{◌≡◌, ◌≤◌, ◌++◌, ◌∷◌, [], ℕ, Some};
ghost use Rattle.fsfs_tree.specs.Nodes.{TreeFunction};
ghost use Rattle.fsfs_base.specs.Paths.{Path};
ghost use Rattle.fsfs_base.specs.declared.kind.Kind.TheVariants.{Dir};
ghost use Rattle.fsfs_revision.specs.Told.{RevisionBytes, Knows, Keeps};
ghost use Rattle.fsfs_draft.specs.Own.{Own as Owns, OwnNode};
ghost use Rattle.fsfs_draft.specs.Drafts.{IsDraft, ShowTrees};
ghost use Rattle.fsfs_edit.specs.DagEdits.Taken.{LeavesGone};
ghost use Rattle.fsfs_draft.specs.Causes.{HasDiskCause, HasBenchCause};

use fsfs_draft::{EditError, Own, listed_in};
use fsfs_noderev::NodeId;
use fsfs_revision::Book;
use std::alloc::Global;

/// Takes away what stands under a name of an own directory, and all below it.
pub fn take_away<B: Book, N: Own>(
    alloc: Global,
    book: &mut B,
    own: &mut N,
    dir: &NodeId,
    name: &str,
) -> Result<(), EditError>
    // Where the folder holds a draft and the directory stands at a path, the tree is that without what stands there, and no reading
    // is wrong.
    ensures draft { (look : RevisionBytes) (trees : ℕ → TreeFunction) (top base : ℕ) (nodes : Owns) (p : Path) (d : OwnNode) → Knows (B.told book.old).revs top look → ShowTrees look top trees → base ≤ top → IsDraft look top base (N.txn own.old) (N.folder own.old) nodes → nodes p ≡ Some d → d.node.id ≡ dir.now → d.node.kind ≡ Dir → LeavesGone look trees top base (N.txn own.old) (N.folder own.old) nodes p name.now (N.folder own.new) result }
    ensures settled { N.settled own.new ≡ N.settled own.old }
    ensures name { N.txn own.new ≡ N.txn own.old }
    ensures bench { HasBenchCause (N.faults own.old) (N.faults own.new) result }
    ensures kept { Keeps (B.told book.old) (B.told book.new) }
    ensures cause { HasDiskCause (B.faults book.old) (B.faults book.new) result }
{
    let Some(kept) = own.kept(dir) else {
        return Err(EditError::Lacking);
    };
    let entries = listed_in(alloc, book, kept)?;
    own.take_entry(dir, entries, name)?;
    Ok(())
}
