//! Copies.
ghost use Rattle.std.specs.Prelude.{◌≡◌, ◌≤◌, ◌+◌, ◌++◌, ◌∷◌, [], ℕ, Some, None, true, is_some, IfOk, IfErr};
ghost use Rattle.fsfs_tree.specs.Nodes.{TreeFunction};
ghost use Rattle.fsfs_base.specs.Paths.{Path};
ghost use Rattle.fsfs_base.specs.declared.kind.Kind.TheVariants.{Dir};
ghost use Rattle.fsfs_revision.specs.Told.{RevisionBytes, Knows, Keeps};
ghost use Rattle.fsfs_noderev.specs.Ids.{New, part_value};
ghost use Rattle.fsfs_revision.specs.Shows.Reading.{StandsAt};
ghost use Rattle.fsfs_draft.specs.Own.{Own as Owns, OwnNode, draft_tree};
ghost use Rattle.fsfs_draft.specs.Drafts.{IsDraft, ShowTrees};
ghost use Rattle.fsfs_dag.specs.Listing.Views.{listed};
ghost use Rattle.fsfs_draft.specs.Entries.{AreOwnEntries};
ghost use Rattle.fsfs_draft.specs.Errors.{IsWant};
ghost use Rattle.fsfs_edit.specs.DagEdits.Mutable.{IsAmiss};
ghost use Rattle.fsfs_edit.specs.DagEdits.Copied.{IsCopyNode, IsCopyPut, LeavesCopy};
ghost use Rattle.fsfs_draft.specs.Causes.{HasDiskCause, HasBenchCause};

use crate::dag_edits::ids::id_of;
use crate::dag_edits::mutable::drawn_part;
use fsfs_base::TxnName;
use fsfs_dag::Listing;
use fsfs_draft::{EditError, Own, listed_in};
use fsfs_noderev::{CopySource, NodeId, NodeRev, Part, Place};
use fsfs_revision::Book;
use std::alloc::{AllocError, Global};

/// The same revision and path.
pub fn same_source(from: &CopySource) -> Result<CopySource, AllocError>
    ensures { IfOk result (λ same. same ≡ from.now) }
{
    let path = from.path.clone()?;
    Ok(CopySource {
        rev: from.rev,
        path,
    })
}

// A copy of a node-revision under a name of the directory.
fn copy_node(
    alloc: Global,
    txn: TxnName,
    dir: &NodeRev,
    source: &NodeRev,
    from: &CopySource,
    copy: Part,
    name: &str,
) -> Result<NodeRev, AllocError>
    ensures told { IfOk result (λ w. IsCopyNode txn dir.now source.now w from.now name.now) }
    ensures copy { IfOk result (λ w. w.id.copy ≡ copy) }
{
    let path = dir.created_path.child(alloc, name)?;
    let origin = same_source(from)?;
    Ok(NodeRev {
        id: NodeId {
            node: source.id.node,
            copy,
            place: Place::In(txn),
        },
        kind: source.kind,
        predecessor: Some(source.id),
        count: source.count.saturating_add(1),
        text: source.text,
        props: source.props,
        created_path: path,
        copy_from: Some(origin),
        copy_root: None,
        is_fresh_txn_root: false,
        mergeinfo_count: source.mergeinfo_count,
        has_mergeinfo: source.has_mergeinfo,
    })
}

// Puts a copy behind a name of a directory with these entries.
fn copy_child<N: Own>(
    alloc: Global,
    own: &mut N,
    dir: &NodeId,
    entries: Listing,
    name: &str,
    source: &NodeRev,
    from: &CopySource,
) -> Result<NodeId, EditError>
    requires { AreOwnEntries (N.folder own.old) dir.now (listed entries) }
    ensures done { IfOk result (IsCopyPut (N.folder own.old) (N.folder own.new) (N.txn own.old) dir.now (listed entries) name.now source.now from.now) }
    ensures cause { IfErr result (λ e. IsWant e (IsAmiss (N.folder own.old) dir.now source.now.id)) }
    ensures settled { N.settled own.new ≡ N.settled own.old }
    ensures name { N.txn own.new ≡ N.txn own.old }
    ensures bench { HasBenchCause (N.faults own.old) (N.faults own.new) result }
{
    if own.kept(dir).is_none() {
        return Err(EditError::Lacking);
    }
    let copy = drawn_part(own, &source.id)?;
    let txn = own.name();
    let Some(kept) = own.kept(dir) else {
        return Err(EditError::Lacking);
    };
    let child = copy_node(alloc, txn, &kept.node, source, from, copy, name)?;
    let id = id_of(&child);
    own.put_child(dir, entries, name, source.kind, child)?;
    Ok(id)
}

/// Puts a copy of a node-revision of a revision under a name of an own directory, and answers its id. Nothing below is copied.
pub fn copy_to<B: Book, N: Own>(
    alloc: Global,
    book: &mut B,
    own: &mut N,
    dir: &NodeId,
    name: &str,
    source: &NodeRev,
    from: &CopySource,
) -> Result<NodeId, EditError>
    // Where the folder holds a draft, the directory stands at a path, nothing stands below it under the name, and the source stands
    // where it is said: the tree is that with a copy of the source and all below it there, and no reading is wrong.
    ensures draft { (look : RevisionBytes) (trees : ℕ → TreeFunction) (top base : ℕ) (nodes : Owns) (p : Path) (d : OwnNode) → Knows (B.told book.old).revs top look → ShowTrees look top trees → base ≤ top → IsDraft look top base (N.txn own.old) (N.folder own.old) nodes → nodes p ≡ Some d → d.node.id ≡ dir.now → d.node.kind ≡ Dir → draft_tree trees nodes (trees base) (p ++ name.now ∷ []) ≡ None → from.now.rev ≤ top → StandsAt look from.now.rev from.now.path source.now → LeavesCopy look trees top base (N.txn own.old) (N.folder own.old) nodes p name.now from.now (N.folder own.new) result }
    ensures settled { N.settled own.new ≡ N.settled own.old }
    ensures name { N.txn own.new ≡ N.txn own.old }
    ensures bench { HasBenchCause (N.faults own.old) (N.faults own.new) result }
    ensures kept { Keeps (B.told book.old) (B.told book.new) }
    ensures cause { HasDiskCause (B.faults book.old) (B.faults book.new) result }
{
    let Some(kept) = own.kept(dir) else {
        return Err(EditError::Lacking);
    };
    let entries = listed_in(alloc, book, kept)?;
    if entries.get(name).is_some() {
        return Err(EditError::Lacking);
    }
    copy_child(alloc, own, dir, entries, name, source, from)
}
