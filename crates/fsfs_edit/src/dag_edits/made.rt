//! New nodes.
ghost use Rattle.std.specs.Prelude.{◌≡◌, ◌≤◌, ◌+◌, ◌++◌, ◌∷◌, [], ℕ, Some, None, true, is_some, IfOk, IfErr};
ghost use Rattle.fsfs_tree.specs.Nodes.{TreeFunction};
ghost use Rattle.fsfs_base.specs.Paths.{Path};
ghost use Rattle.fsfs_base.specs.declared.kind.Kind.TheVariants.{Dir};
ghost use Rattle.fsfs_revision.specs.Told.{RevisionBytes, Knows, Keeps};
ghost use Rattle.fsfs_noderev.specs.Ids.{New, part_value};
ghost use Rattle.fsfs_draft.specs.Own.{Own as Owns, OwnNode, draft_tree};
ghost use Rattle.fsfs_draft.specs.Drafts.{IsDraft, ShowTrees};
ghost use Rattle.fsfs_dag.specs.Listing.Views.{listed};
ghost use Rattle.fsfs_draft.specs.Entries.{AreOwnEntries};
ghost use Rattle.fsfs_draft.specs.Errors.{IsWant};
ghost use Rattle.fsfs_edit.specs.DagEdits.Made.{drawn_node, IsNewNode, IsAmissNode, IsChildMade, LeavesNew};
ghost use Rattle.fsfs_draft.specs.Causes.{HasDiskCause, HasBenchCause};

use crate::dag_edits::ids::{id_of, id_with};
use crate::dag_edits::successor::own_root;
use fsfs_base::{Kind, TxnName};
use fsfs_dag::Listing;
use fsfs_draft::{EditError, Own, listed_in};
use fsfs_noderev::{NodeId, NodeRev, Part, Place};
use fsfs_revision::Book;
use std::alloc::{AllocError, Global};

// A new node-revision under a name of the directory.
fn new_node(
    alloc: Global,
    txn: TxnName,
    dir: &NodeRev,
    node: Part,
    kind: Kind,
    name: &str,
) -> Result<NodeRev, AllocError>
    ensures told { IfOk result (λ w. IsNewNode txn dir.now w kind name.now) }
    ensures node { IfOk result (λ w. w.id.node ≡ node) }
{
    let root = own_root(dir)?;
    let path = dir.created_path.child(alloc, name)?;
    Ok(NodeRev {
        id: NodeId {
            node,
            copy: dir.id.copy,
            place: Place::In(txn),
        },
        kind,
        predecessor: None,
        count: 0,
        text: None,
        props: None,
        created_path: path,
        copy_from: None,
        copy_root: Some(root),
        is_fresh_txn_root: false,
        mergeinfo_count: None,
        has_mergeinfo: false,
    })
}

// Draws a node part that has no file with this copy part.
fn drawn_node_part<N: Own>(own: &mut N, dir: &NodeId) -> Result<Part, EditError>
    ensures done { IfOk result (λ part. (part_value part ≡ New (N.folder own.old).next_node) × (N.folder own.new ≡ drawn_node (N.folder own.old)) × ((N.folder own.old).nodes (part_value part) (part_value dir.now.copy) ≡ None)) }
    ensures cause { IfErr result (λ e. IsWant e (is_some ((N.folder own.old).nodes (New (N.folder own.old).next_node) (part_value dir.now.copy)) ≡ true)) }
    ensures settled { N.settled own.new ≡ N.settled own.old }
    ensures name { N.txn own.new ≡ N.txn own.old }
    ensures bench { HasBenchCause (N.faults own.old) (N.faults own.new) result }
{
    let number = own.draw_node()?;
    let node = Part::New(number);
    if own.kept(&id_with(dir, &node, &dir.copy)).is_some() {
        return Err(EditError::Lacking);
    }
    Ok(node)
}

// Puts a new node behind a name of a directory with these entries.
fn new_child<N: Own>(
    alloc: Global,
    own: &mut N,
    dir: &NodeId,
    entries: Listing,
    name: &str,
    kind: Kind,
) -> Result<NodeId, EditError>
    requires { AreOwnEntries (N.folder own.old) dir.now (listed entries) }
    ensures done { IfOk result (IsChildMade (N.folder own.old) (N.folder own.new) (N.txn own.old) dir.now (listed entries) name.now kind) }
    ensures cause { IfErr result (λ e. IsWant e (IsAmissNode (N.folder own.old) dir.now)) }
    ensures settled { N.settled own.new ≡ N.settled own.old }
    ensures name { N.txn own.new ≡ N.txn own.old }
    ensures bench { HasBenchCause (N.faults own.old) (N.faults own.new) result }
{
    let copy = match own.kept(dir) {
        None => return Err(EditError::Lacking),
        Some(kept) => kept.node.id.copy,
    };
    let node = drawn_node_part(own, &id_with(dir, &dir.node, &copy))?;
    let txn = own.name();
    let Some(kept) = own.kept(dir) else {
        return Err(EditError::Lacking);
    };
    let child = new_node(alloc, txn, &kept.node, node, kind, name)?;
    let id = id_of(&child);
    own.put_child(dir, entries, name, kind, child)?;
    Ok(id)
}

/// Puts a new node under a name of an own directory, and answers its id.
pub fn make_node<B: Book, N: Own>(
    alloc: Global,
    book: &mut B,
    own: &mut N,
    dir: &NodeId,
    name: &str,
    kind: Kind,
) -> Result<NodeId, EditError>
    // Where the folder holds a draft, the directory stands at a path, and nothing stands below it under the name: the tree is that with
    // an empty node there, and no reading is wrong.
    ensures draft { (look : RevisionBytes) (trees : ℕ → TreeFunction) (top base : ℕ) (nodes : Owns) (p : Path) (d : OwnNode) → Knows (B.told book.old).revs top look → ShowTrees look top trees → base ≤ top → IsDraft look top base (N.txn own.old) (N.folder own.old) nodes → nodes p ≡ Some d → d.node.id ≡ dir.now → d.node.kind ≡ Dir → draft_tree trees nodes (trees base) (p ++ name.now ∷ []) ≡ None → LeavesNew look trees top base (N.txn own.old) (N.folder own.old) nodes p name.now kind (N.folder own.new) result }
    ensures settled { N.settled own.new ≡ N.settled own.old }
    ensures name { N.txn own.new ≡ N.txn own.old }
    ensures bench { HasBenchCause (N.faults own.old) (N.faults own.new) result }
    ensures kept { Keeps (B.told book.old) (B.told book.new) }
    ensures cause { HasDiskCause (B.faults book.old) (B.faults book.new) result }
{
    let Some(kept) = own.kept(dir) else {
        return Err(EditError::Lacking);
    };
    let entries = listed_in(alloc, book, kept)?;
    if entries.get(name).is_some() {
        return Err(EditError::Lacking);
    }
    new_child(alloc, own, dir, entries, name, kind)
}
