//! What stands at a path, and whether counts of mergeinfo are met on the way to it.
ghost use Rattle.std.specs.Prelude.{◌≡◌, ◌≤◌, [], ℕ, Some};
ghost use Rattle.fsfs_base.specs.declared.kind.Kind.TheVariants.{Dir};
ghost use Rattle.fsfs_tree.specs.Nodes.{TreeFunction};
ghost use Rattle.fsfs_revision.specs.Told.{RevisionBytes, Knows, Keeps};
ghost use Rattle.fsfs_draft.specs.Own.{Own as Owns, OwnNode, draft_tree};
ghost use Rattle.fsfs_draft.specs.Drafts.{IsDraft, ShowTrees};
ghost use Rattle.fsfs_draft.specs.Causes.{HasDiskCause, HasBenchCause};
ghost use Rattle.fsfs_txn.specs.Edits.Mergeinfo.{has_counts};
ghost use Rattle.fsfs_txn.specs.Seeing.{counts_with, IsBaseCounts, IsSeen, Sees};

use fsfs_base::{FsPath, Kind};
use fsfs_dag::named_node;
use fsfs_draft::{Child, EditError, Own, Step, next, root_id};
use fsfs_noderev::{NodeId, NodeRev};
use fsfs_revision::Book;
use std::alloc::Global;

/// What stands at a path.
#[derive(Drop)]
pub(crate) enum Seen {
    /// Something does. Counts of mergeinfo were met at the base's root or on the way, at what is not the transaction's own, or not.
    Node { child: Child, counted: bool },
    /// So many names of the path lead to nothing.
    Absent(usize),
    /// So many names of the path lead to a file, and more follow.
    File(usize),
}

/// Whether a node-revision has counts of mergeinfo.
pub(crate) fn has_counts(node: &NodeRev) -> bool
    ensures { result ≡ has_counts node.now }
{
    node.has_mergeinfo || node.mergeinfo_count.is_some()
}

// Whether counts were met before, or are met at a step that is not the transaction's own.
fn counts_with(before: bool, step: &Step) -> bool
    ensures { result ≡ counts_with before step.now }
{
    match step {
        Step::Own(_) => before,
        Step::Lasting(found) => before || has_counts(&found.node),
    }
}

// Whether the base's root has counts: it is what the transaction's root goes on from.
fn base_counts<B: Book, N: Own>(
    alloc: Global,
    book: &mut B,
    own: &N,
    root: &NodeId,
) -> Result<bool, EditError>
    ensures draft { (look : RevisionBytes) (trees : ℕ → TreeFunction) (top base : ℕ) (nodes : Owns) (v : OwnNode) → Knows (B.told book.old).revs top look → ShowTrees look top trees → base ≤ top → IsDraft look top base (N.txn own.now) (N.folder own.now) nodes → nodes [] ≡ Some v → v.node.id ≡ root.now → v.node.kind ≡ Dir → IsBaseCounts look base result }
    ensures kept { Keeps (B.told book.old) (B.told book.new) }
    ensures cause { HasDiskCause (B.faults book.old) (B.faults book.new) result }
    ensures bench { HasBenchCause (N.faults own.now) (N.faults own.now) result }
{
    let Some(kept) = own.kept(root) else {
        return Err(EditError::Lacking);
    };
    let Some(before) = &kept.node.predecessor else {
        return Err(EditError::Lacking);
    };
    let found = named_node(alloc, book, before)?;
    Ok(has_counts(&found.node))
}

// What stands at a path, below the root of this id.
fn seen_below<B: Book, N: Own>(
    alloc: Global,
    book: &mut B,
    own: &N,
    root: &NodeId,
    path: &FsPath,
) -> Result<Seen, EditError>
    ensures draft { (look : RevisionBytes) (trees : ℕ → TreeFunction) (top base : ℕ) (nodes : Owns) (v : OwnNode) → Knows (B.told book.old).revs top look → ShowTrees look top trees → base ≤ top → IsDraft look top base (N.txn own.now) (N.folder own.now) nodes → nodes [] ≡ Some v → v.node.id ≡ root.now → v.node.kind ≡ Dir → IsSeen look trees base nodes (draft_tree trees nodes (trees base)) path.now result }
    ensures kept { Keeps (B.told book.old) (B.told book.new) }
    ensures cause { HasDiskCause (B.faults book.old) (B.faults book.new) result }
    ensures bench { HasBenchCause (N.faults own.now) (N.faults own.now) result }
{
    let mut counted = base_counts(alloc, book, own, root)?;
    let mut at = Child {
        step: Step::Own(*root),
        kind: Kind::Dir,
    };
    let mut depth = 0usize;
    for name in path.names() {
        match at.kind {
            Kind::File => return Ok(Seen::File(depth)),
            Kind::Dir => {}
        }
        match next(alloc, book, own, &at.step, name)? {
            None => return Ok(Seen::Absent(depth + 1)),
            Some(child) => at = child,
        }
        counted = counts_with(counted, &at.step);
        depth += 1;
    }
    Ok(Seen::Node { child: at, counted })
}

/// What stands at a path of the transaction's tree.
pub(crate) fn seen_on<B: Book, N: Own>(
    alloc: Global,
    book: &mut B,
    own: &N,
    path: &FsPath,
) -> Result<Seen, EditError>
    ensures sees { Sees (B.told book.old).revs (N.txn own.now) (N.folder own.now) path.now result }
    ensures kept { Keeps (B.told book.old) (B.told book.new) }
    ensures cause { HasDiskCause (B.faults book.old) (B.faults book.new) result }
    ensures bench { HasBenchCause (N.faults own.now) (N.faults own.now) result }
{
    let root = root_id(own.name());
    seen_below(alloc, book, own, &root, path)
}
