//! Copies, and where the copy part of what is no copy comes from.
ghost use Rattle.std.specs.Prelude.{◌≡◌, ◌≤◌, ◌++◌, ◌∷◌, [], List, true, false, Some, None, IfSome, Err, option_map};
ghost use Rattle.fsfs_noderev.specs.declared.node_id.Part.{Part};
ghost use Rattle.fsfs_noderev.specs.declared.node_id.NodeId.{NodeId as Id};
ghost use Rattle.fsfs_noderev.specs.declared.node_rev.NodeRev.{NodeRev as Node};
ghost use Rattle.fsfs_revision.specs.Damage.Causes.{HasCause};
ghost use Rattle.fsfs_revision.specs.Nodes.{is_lasting_part};
ghost use Rattle.fsfs_revision.specs.Told.{RevisionBytes, Knows, Keeps};
ghost use Rattle.fsfs_revision.specs.Shows.Chains.{own_rev, Chain, copy_root_of};
ghost use Rattle.fsfs_revision.specs.Shows.Reading.{Stands, offset_of};
ghost use Rattle.fsfs_dag.specs.Same.{same_part};
ghost use Rattle.fsfs_dag.specs.Views.{home_of, met_value};
ghost use Rattle.fsfs_verify.specs.Brought.{Brought};
ghost use Rattle.fsfs_verify.specs.Copies.{IsCopy, IsWrongCopy, first_rev, HasPartBehind, HasPartBefore, TakesPart, IsWrongPart};
ghost use Rattle.fsfs_verify.specs.Finds.{Finds};
ghost use Rattle.fsfs_sound.specs.Written.{Precedes};

use crate::damage::breaks_rule;
use crate::parts::Parts;
use crate::same::{root_path, root_rev};
use fsfs_base::RevNum;
use fsfs_dag::{Met, PlacedNode, named_node, node_at, same_id, same_part};
use fsfs_noderev::{CopySource, NodeId, NodeRev, Part, Place};
use fsfs_revision::{Book, ReadError};
use std::alloc::Global;

// Whether a copy is its own copy root.
fn is_own_root(rev: RevNum, copy: &NodeRev) -> bool
    ensures yes { result ≡ true → copy_root_of copy.now ≡ (rev, copy.now.created_path) }
    ensures other { result ≡ false → copy_root_of copy.now ≡ (rev, copy.now.created_path) → ⊥ }
{
    root_rev(copy).get() == rev.get() && *root_path(copy) == copy.created_path
}

// Whether what stands at a path is the predecessor.
fn is_pred(copy: &NodeRev, met: &Met) -> bool
    ensures yes { result ≡ true → (u : Node) × (met_value met.now ≡ Stands u) × (copy.now.predecessor ≡ Some u.id) }
    ensures other { result ≡ false → (u : Node) → met_value met.now ≡ Stands u → copy.now.predecessor ≡ Some u.id → ⊥ }
{
    match &copy.predecessor {
        None => false,
        Some(id) => match met {
            Met::Node(found) => same_id(&found.node.id, id),
            Met::Absent(_) | Met::File(_) => false,
        },
    }
}

/// A copy of this revision: it is its own copy root, its copy part is its own, and it goes on from what stands at its source.
pub(crate) fn check_copy<B: Book>(
    alloc: Global,
    book: &mut B,
    rev: RevNum,
    parts: &mut Parts,
    copy: &PlacedNode,
    source: &CopySource,
) -> Result<(), ReadError>
    ensures told { (look : RevisionBytes) (begun copied drawn : List Part) → Knows (B.told book.old).revs rev look → source.now.rev ≤ rev → is_lasting_part copy.now.node.id.copy ≡ true → Brought rev parts.old begun copied drawn
        → Finds (λ _. IsCopy look rev copied drawn copy.now.node source.now × Brought rev parts.new begun (copied ++ copy.now.node.id.copy ∷ []) drawn) (IsWrongCopy look rev copied drawn copy.now.node source.now) result }
    ensures kept { Keeps (B.told book.old) (B.told book.new) }
    ensures cause { HasCause (B.faults book.old) (B.faults book.new) result }
{
    if !is_own_root(rev, &copy.node) {
        return Err(breaks_rule(copy));
    }
    parts.copy_node(rev, copy)?;
    let met = node_at(alloc, book, source.rev, &source.path)?;
    if is_pred(&copy.node, &met) {
        Ok(())
    } else {
        Err(breaks_rule(copy))
    }
}

// The revision of an id.
fn id_rev(id: &NodeId) -> RevNum
    ensures { result ≡ (offset_of id.now.place).rev }
{
    match id.place {
        Place::At(rev, _) => rev,
        Place::In(_) => RevNum::ZERO,
    }
}

// The first revision whose node-revisions may have this part.
fn first_rev(part: &Part) -> RevNum
    ensures { result ≡ first_rev part.now }
{
    match part {
        Part::Made(_, rev) => *rev,
        Part::Old(_) | Part::New(_) => RevNum::ZERO,
    }
}

// The predecessor of a node-revision, unless it is of a revision before this one.
fn pred_from(least: RevNum, node: &NodeRev) -> Option<NodeId>
    ensures some { IfSome result (λ id. (node.now.predecessor ≡ Some id) × (least ≤ (offset_of id.place).rev)) }
    ensures only { (id : Id) → node.now.predecessor ≡ Some id → least ≤ (offset_of id.place).rev → result ≡ Some id }
{
    match node.predecessor {
        None => None,
        Some(id) => { if id_rev(&id) < least { None } else { Some(id) } }
    }
}

// Whether a node-revision has this copy part.
fn has_copy_part(node: &NodeRev, part: &Part) -> bool
    ensures { result ≡ same_part node.now.id.copy part.now }
{
    same_part(node.id.copy, *part)
}

// Whether a node-revision or one before it in its chain of predecessors has this copy part. Those of revisions before the
// part's are not looked at.
fn has_part<B: Book>(
    alloc: Global,
    book: &mut B,
    part: &Part,
    node: &PlacedNode,
) -> Result<bool, ReadError>
    ensures told { (look : RevisionBytes) → Knows (B.told book.old).revs (home_of node.now.node).rev look → Finds (HasPartBehind look part.now node.now.node) (λ w. Chain look node.now.node (Err w)) result }
    ensures kept { Keeps (B.told book.old) (B.told book.new) }
    ensures cause { HasCause (B.faults book.old) (B.faults book.new) result }
{
    if has_copy_part(&node.node, part) {
        return Ok(true);
    }
    let least = first_rev(part);
    let mut left = pred_from(least, &node.node);
    'back: while let Some(id) = left {
        let before = named_node(alloc, book, &id)?;
        // What it goes on from stands before it.
        let _home = before.place();
        if has_copy_part(&before.node, part) {
            return Ok(true);
        }
        left = pred_from(least, &before.node);
    }
    Ok(false)
}

// Whether a predecessor, if there is one, or one before it has this copy part.
fn has_part_before<B: Book>(
    alloc: Global,
    book: &mut B,
    part: &Part,
    node: &PlacedNode,
    pred: Option<&PlacedNode>,
) -> Result<bool, ReadError>
    ensures told { (look : RevisionBytes) → Knows (B.told book.old).revs (home_of node.now.node).rev look → Precedes look node.now.node (option_map (λ u. u.now.node) pred.entry)
        → Finds (HasPartBefore look part.now node.now.node) (λ w. Chain look node.now.node (Err w)) result }
    ensures kept { Keeps (B.told book.old) (B.told book.new) }
    ensures cause { HasCause (B.faults book.old) (B.faults book.new) result }
{
    match pred {
        None => Ok(false),
        Some(pred) => has_part(alloc, book, part, pred),
    }
}

/// The copy part of what is no copy, in a directory of its revision: the directory's, an earlier one, or drawn.
pub(crate) fn check_copy_part<B: Book>(
    alloc: Global,
    book: &mut B,
    rev: RevNum,
    parts: &mut Parts,
    dir: &PlacedNode,
    node: &PlacedNode,
    pred: Option<&PlacedNode>,
) -> Result<(), ReadError>
    ensures told { (look : RevisionBytes) (begun copied drawn : List Part) → Knows (B.told book.old).revs rev look → own_rev node.now.node ≡ rev → is_lasting_part node.now.node.id.copy ≡ true → Precedes look node.now.node (option_map (λ u. u.now.node) pred.entry) → Brought rev parts.old begun copied drawn
        → Finds (λ _. (now : List Part) × TakesPart look rev copied dir.now.node node.now.node drawn now × Brought rev parts.new begun copied now) (IsWrongPart look rev copied dir.now.node node.now.node) result }
    ensures kept { Keeps (B.told book.old) (B.told book.new) }
    ensures cause { HasCause (B.faults book.old) (B.faults book.new) result }
{
    let part = &node.node.id.copy;
    if has_copy_part(&dir.node, part) {
        return Ok(());
    }
    if has_part_before(alloc, book, part, node, pred)? {
        return Ok(());
    }
    parts.draw_part(rev, node)
}
