//! How what stands in a directory of the transaction becomes its own.
ghost use Rattle.std.specs.Prelude.{◌≡◌, ◌≤◌, ◌+◌, ◌++◌, ◌∷◌, [], ℕ, Some, None, true, is_some, IfOk, IfErr, OnOk};
ghost use Rattle.fsfs_noderev.specs.Ids.{New, part_value};
ghost use Rattle.fsfs_tree.specs.Nodes.{TreeFunction};
ghost use Rattle.fsfs_base.specs.Paths.{Path};
ghost use Rattle.fsfs_base.specs.declared.kind.Kind.TheVariants.{Dir};
ghost use Rattle.fsfs_revision.specs.Told.{RevisionBytes, Knows, Keeps};
ghost use Rattle.fsfs_draft.specs.Own.{Own as Owns, OwnNode, draft_tree};
ghost use Rattle.fsfs_draft.specs.Drafts.{IsDraft, ShowTrees};
ghost use Rattle.fsfs_draft.specs.Steps.{kept_at};
ghost use Rattle.fsfs_dag.specs.Listing.Views.{listed};
ghost use Rattle.fsfs_draft.specs.Entries.{AreOwnEntries};
ghost use Rattle.fsfs_draft.specs.Errors.{IsWant};
ghost use Rattle.fsfs_edit.specs.DagEdits.Mutable.{drawn, IsPartFrom, IsAmiss, IsChildChanged, LeavesMutable};
ghost use Rattle.fsfs_draft.specs.Causes.{HasDiskCause, HasBenchCause};

use crate::dag_edits::ids::{id_of, id_with};
use crate::dag_edits::successor::{is_after, root_rev, successor};
use fsfs_base::{Kind, RevNum};
use fsfs_dag::{Listing, named_node};
use fsfs_draft::{EditError, Own, listed_in};
use fsfs_noderev::{NodeId, NodeRev, Part};
use fsfs_revision::{Book, is_revision_id, own_rev};
use std::alloc::Global;

// A copy part that is drawn for a node part.
pub(crate) fn drawn_part<N: Own>(own: &mut N, old: &NodeId) -> Result<Part, EditError>
    ensures done { IfOk result (λ part. (part_value part ≡ New (N.folder own.old).next_copy) × (N.folder own.new ≡ drawn (N.folder own.old)) × ((N.folder own.new).nodes (part_value old.now.node) (part_value part) ≡ None)) }
    ensures cause { IfErr result (λ e. IsWant e (is_some ((N.folder own.old).nodes (part_value old.now.node) (New (N.folder own.old).next_copy)) ≡ true)) }
    ensures settled { N.settled own.new ≡ N.settled own.old }
    ensures name { N.txn own.new ≡ N.txn own.old }
    ensures bench { HasBenchCause (N.faults own.old) (N.faults own.new) result }
{
    let number = own.draw_copy()?;
    let copy = Part::New(number);
    if own.kept(&id_with(old, &old.node, &copy)).is_some() {
        return Err(EditError::Lacking);
    }
    Ok(copy)
}

// The copy part of what goes on from `old` in the directory: the directory's where that was copied since, else its own; or
// a new one, where a node-revision of that id is in the folder already.
fn copy_part<N: Own>(
    own: &mut N,
    dir: &NodeId,
    root: Option<RevNum>,
    old: &NodeRev,
) -> Result<Part, EditError>
    ensures done { IfOk result (IsPartFrom (N.folder own.old) (N.folder own.new) dir.now.copy old.now.id) }
    ensures cause { IfErr result (λ e. IsWant e (IsAmiss (N.folder own.old) dir.now old.now.id)) }
    ensures settled { N.settled own.new ≡ N.settled own.old }
    ensures name { N.txn own.new ≡ N.txn own.old }
    ensures bench { HasBenchCause (N.faults own.old) (N.faults own.new) result }
{
    let copy = if is_after(root, own_rev(old)) {
        dir.copy
    } else {
        old.id.copy
    };
    if own.kept(&id_with(&old.id, &old.id.node, &copy)).is_none() {
        return Ok(copy);
    }
    drawn_part(own, &old.id)
}

/// Puts a node-revision that goes on from `old` behind a name of a directory with these entries, without any book.
pub fn change_child<N: Own>(
    alloc: Global,
    own: &mut N,
    dir: &NodeId,
    entries: Listing,
    name: &str,
    kind: Kind,
    old: &NodeRev,
) -> Result<NodeId, EditError>
    requires { AreOwnEntries (N.folder own.old) dir.now (listed entries) }
    ensures done { IfOk result (IsChildChanged (N.folder own.old) (N.folder own.new) (N.txn own.old) dir.now (listed entries) name.now kind old.now) }
    ensures cause { IfErr result (λ e. IsWant e (IsAmiss (N.folder own.old) dir.now old.now.id)) }
    ensures settled { N.settled own.new ≡ N.settled own.old }
    ensures name { N.txn own.new ≡ N.txn own.old }
    ensures bench { HasBenchCause (N.faults own.old) (N.faults own.new) result }
{
    let root = match own.kept(dir) {
        None => return Err(EditError::Lacking),
        Some(kept) => root_rev(&kept.node),
    };
    let copy = copy_part(own, dir, root, old)?;
    let txn = own.name();
    let Some(kept) = own.kept(dir) else {
        return Err(EditError::Lacking);
    };
    let child = successor(alloc, txn, &kept.node, old, copy, name)?;
    let id = id_of(&child);
    own.put_child(dir, entries, name, kind, child)?;
    Ok(id)
}

/// Makes what stands under a name of an own directory the transaction's own, and answers its id.
pub fn make_mutable<B: Book, N: Own>(
    alloc: Global,
    book: &mut B,
    own: &mut N,
    dir: &NodeId,
    name: &str,
) -> Result<NodeId, EditError>
    // Where the folder holds a draft, the directory stands at a path, and something stands below it under the name: the tree stays as
    // it is, what stands there is the transaction's own, and no reading is wrong.
    ensures draft { (look : RevisionBytes) (trees : ℕ → TreeFunction) (top base : ℕ) (nodes : Owns) (p : Path) (d : OwnNode) → Knows (B.told book.old).revs top look → ShowTrees look top trees → base ≤ top → IsDraft look top base (N.txn own.old) (N.folder own.old) nodes → nodes p ≡ Some d → d.node.id ≡ dir.now → d.node.kind ≡ Dir → is_some (draft_tree trees nodes (trees base) (p ++ name.now ∷ [])) ≡ true → LeavesMutable look trees top base (N.txn own.old) (N.folder own.old) nodes p name.now (N.folder own.new) result }
    ensures proto { OnOk result ((N.folder own.new).proto ≡ (N.folder own.old).proto) }
    ensures settled { N.settled own.new ≡ N.settled own.old }
    ensures name { N.txn own.new ≡ N.txn own.old }
    ensures bench { HasBenchCause (N.faults own.old) (N.faults own.new) result }
    ensures kept { Keeps (B.told book.old) (B.told book.new) }
    ensures cause { HasDiskCause (B.faults book.old) (B.faults book.new) result }
{
    let Some(kept) = own.kept(dir) else {
        return Err(EditError::Lacking);
    };
    let entries = listed_in(alloc, book, kept)?;
    let Some(entry) = entries.get(name) else {
        return Err(EditError::Lacking);
    };
    let kind = entry.kind;
    let id = entry.id;
    if !is_revision_id(&id) {
        return Ok(id);
    }
    let old = named_node(alloc, book, &id)?;
    change_child(alloc, own, dir, entries, name, kind, &old.node)
}
