//! The way to the directory in which an edit is asked for.
ghost use Rattle.std.specs.Prelude.{◌≡◌, ◌≤◌, [], ℕ, Some, OnOk};
ghost use Rattle.fsfs_tree.specs.Nodes.{TreeFunction};
ghost use Rattle.fsfs_base.specs.Paths.{Path};
ghost use Rattle.fsfs_base.specs.declared.kind.Kind.TheVariants.{Dir};
ghost use Rattle.fsfs_revision.specs.Told.{RevisionBytes, Knows, Keeps};
ghost use Rattle.fsfs_draft.specs.Own.{Own as Owns, OwnNode, draft_tree};
ghost use Rattle.fsfs_draft.specs.Drafts.{IsDraft, ShowTrees};
ghost use Rattle.fsfs_draft.specs.Walks.{IsAt, HasKind};
ghost use Rattle.fsfs_edit.specs.Ways.{IsTarget, LooksAt, Opens};
ghost use Rattle.fsfs_draft.specs.Causes.{HasDiskCause, HasBenchCause};

use crate::dag_edits::path_mutable::bubble_up;
use fsfs_base::{FsPath, Kind};
use fsfs_draft::{Child, EditError, Found, Own, Step, met, next, root_id};
use fsfs_noderev::NodeId;
use fsfs_revision::Book;
use std::alloc::Global;

/// What stands where an edit is asked for.
#[derive(Drop)]
pub(crate) enum Target {
    /// So many names of the directory's path lead to nothing.
    NotFound(usize),
    /// So many names of the directory's path lead to a file.
    NotDir(usize),
    /// The directory has nothing of the name.
    Free,
    Taken(Child),
}

// What stands under a name of a directory that a walk came to.
fn beneath<B: Book, N: Own>(
    alloc: Global,
    book: &mut B,
    own: &N,
    dir: &Step,
    name: &str,
) -> Result<Target, EditError>
    ensures draft { (look : RevisionBytes) (trees : ℕ → TreeFunction) (top base : ℕ) (nodes : Owns) (path : Path) → Knows (B.told book.old).revs top look → ShowTrees look top trees → base ≤ top → IsDraft look top base (N.txn own.now) (N.folder own.now) nodes → IsAt look trees base nodes path dir.now → HasKind (draft_tree trees nodes (trees base) path) Dir → IsTarget look trees base nodes (draft_tree trees nodes (trees base)) path name.now result }
    ensures kept { Keeps (B.told book.old) (B.told book.new) }
    ensures cause { HasDiskCause (B.faults book.old) (B.faults book.new) result }
    ensures bench { HasBenchCause (N.faults own.now) (N.faults own.now) result }
{
    match next(alloc, book, own, dir, name)? {
        None => Ok(Target::Free),
        Some(child) => Ok(Target::Taken(child)),
    }
}

// What stands under a name of the directory at a path, below the root of this id.
fn target_at<B: Book, N: Own>(
    alloc: Global,
    book: &mut B,
    own: &N,
    root: &NodeId,
    parent: &FsPath,
    name: &str,
) -> Result<Target, EditError>
    ensures draft { (look : RevisionBytes) (trees : ℕ → TreeFunction) (top base : ℕ) (nodes : Owns) (v : OwnNode) → Knows (B.told book.old).revs top look → ShowTrees look top trees → base ≤ top → IsDraft look top base (N.txn own.now) (N.folder own.now) nodes → nodes [] ≡ Some v → v.node.id ≡ root.now → v.node.kind ≡ Dir → IsTarget look trees base nodes (draft_tree trees nodes (trees base)) parent.now name.now result }
    ensures kept { Keeps (B.told book.old) (B.told book.new) }
    ensures cause { HasDiskCause (B.faults book.old) (B.faults book.new) result }
    ensures bench { HasBenchCause (N.faults own.now) (N.faults own.now) result }
{
    match met(alloc, book, own, root, parent)? {
        Found::Absent(depth) => Ok(Target::NotFound(depth)),
        Found::File(depth) => Ok(Target::NotDir(depth)),
        Found::Node(child) => match child.kind {
            Kind::File => Ok(Target::NotDir(parent.depth())),
            Kind::Dir => beneath(alloc, book, own, &child.step, name),
        },
    }
}

/// What stands under a name of the directory at a path.
pub(crate) fn way_to<B: Book, N: Own>(
    alloc: Global,
    book: &mut B,
    own: &N,
    parent: &FsPath,
    name: &str,
) -> Result<Target, EditError>
    ensures looks { LooksAt (B.told book.old).revs (N.txn own.now) (N.folder own.now) parent.now name.now result }
    ensures kept { Keeps (B.told book.old) (B.told book.new) }
    ensures cause { HasDiskCause (B.faults book.old) (B.faults book.new) result }
    ensures bench { HasBenchCause (N.faults own.now) (N.faults own.now) result }
{
    let root = root_id(own.name());
    target_at(alloc, book, own, &root, parent, name)
}

/// Makes all that stands on the way from the root to a path, and what stands there, the transaction's own, and answers its id.
pub(crate) fn opened_to<B: Book, N: Own>(
    alloc: Global,
    book: &mut B,
    own: &mut N,
    path: &FsPath,
) -> Result<NodeId, EditError>
    ensures opens { Opens (B.told book.old).revs (N.txn own.old) (N.folder own.old) (N.folder own.new) path.now result }
    ensures proto { OnOk result ((N.folder own.new).proto ≡ (N.folder own.old).proto) }
    ensures settled { N.settled own.new ≡ N.settled own.old }
    ensures name { N.txn own.new ≡ N.txn own.old }
    ensures bench { HasBenchCause (N.faults own.old) (N.faults own.new) result }
    ensures kept { Keeps (B.told book.old) (B.told book.new) }
    ensures cause { HasDiskCause (B.faults book.old) (B.faults book.new) result }
{
    let root = root_id(own.name());
    bubble_up(alloc, book, own, &root, path)
}
