//! A node-revision against the directory that names it.
ghost use Rattle.std.specs.Prelude.{◌≡◌, List, true, false, None, option_map};
ghost use Rattle.fsfs_noderev.specs.declared.node_id.Part.{Part};
ghost use Rattle.fsfs_revision.specs.Damage.Causes.{HasCause};
ghost use Rattle.fsfs_revision.specs.Nodes.{is_lasting_part};
ghost use Rattle.fsfs_revision.specs.Told.{RevisionBytes, Knows, Keeps};
ghost use Rattle.fsfs_revision.specs.Shows.Chains.{own_rev};
ghost use Rattle.fsfs_revision.specs.Shows.Reading.{offset_of};
ghost use Rattle.fsfs_dag.specs.Views.{entry_value};
ghost use Rattle.fsfs_verify.specs.Brought.{Brought};
ghost use Rattle.fsfs_verify.specs.Edges.{IsSameTarget, IsWrongOlder, GoesOnFromEntry, FitsEdge, TakesEdge, IsWrongEdge};
ghost use Rattle.fsfs_verify.specs.Finds.{Finds};
ghost use Rattle.fsfs_sound.specs.Rules.{HasRootOf};
ghost use Rattle.fsfs_sound.specs.Written.{Precedes};

use crate::copies::check_copy_part;
use crate::damage::breaks_rule;
use crate::parts::Parts;
use crate::same::{root_rev, same_root};
use fsfs_base::RevNum;
use fsfs_dag::{DirEntry, PlacedNode, child_of, same_id};
use fsfs_noderev::NodeRev;
use fsfs_revision::{Book, ReadError, own_rev};
use std::alloc::Global;

// Whether two entries name one node-revision, and as one kind.
fn same_target(a: &DirEntry, b: &DirEntry) -> bool
    ensures yes { result ≡ true → (b.now.id ≡ a.now.id) × (b.now.kind ≡ a.now.kind) }
    ensures other { result ≡ false → (b.now.id ≡ a.now.id) × (b.now.kind ≡ a.now.kind) → ⊥ }
{
    same_id(&a.id, &b.id) && a.kind == b.kind
}

// Whether the directory's predecessor has this entry.
fn was_named(entry: &DirEntry, before: Option<&DirEntry>) -> bool
    ensures yes { result ≡ true → IsSameTarget (entry_value entry.now) (option_map (λ e. entry_value e.now) before.entry) }
    ensures other { result ≡ false → IsSameTarget (entry_value entry.now) (option_map (λ e. entry_value e.now) before.entry) → ⊥ }
{
    match before {
        None => false,
        Some(before) => same_target(entry, before),
    }
}

/// An entry of an earlier revision than its directory's: it is that of the directory's predecessor.
pub(crate) fn check_older<B: Book>(
    alloc: Global,
    book: &mut B,
    entry: &DirEntry,
    before: Option<&DirEntry>,
) -> Result<(), ReadError>
    ensures told { (look : RevisionBytes) → Knows (B.told book.old).revs (offset_of entry.now.id.place).rev look
        → Finds (λ _. IsSameTarget (entry_value entry.now) (option_map (λ e. entry_value e.now) before.entry)) (IsWrongOlder look (entry_value entry.now) (option_map (λ e. entry_value e.now) before.entry)) result }
    ensures kept { Keeps (B.told book.old) (B.told book.new) }
    ensures cause { HasCause (B.faults book.old) (B.faults book.new) result }
{
    if was_named(entry, before) {
        return Ok(());
    }
    // It may be damaged itself, which is told then.
    let child = child_of(alloc, book, entry)?;
    Err(breaks_rule(&child))
}

// Whether what is no copy has the copy root that it has to have in its directory: what begins there has the directory's, and
// what goes on has it where the directory was copied since, else its predecessor's.
fn has_root_of(dir: &NodeRev, node: &NodeRev, pred: Option<&PlacedNode>) -> bool
    ensures yes { (look : RevisionBytes) → Precedes look node.now (option_map (λ u. u.now.node) pred.entry) → result ≡ true → HasRootOf look dir.now node.now }
    ensures other { (look : RevisionBytes) → Precedes look node.now (option_map (λ u. u.now.node) pred.entry) → result ≡ false → HasRootOf look dir.now node.now → ⊥ }
{
    match pred {
        None => same_root(node, dir),
        Some(pred) => {
            if own_rev(&pred.node) < root_rev(dir) {
                same_root(node, dir)
            } else {
                same_root(node, &pred.node)
            }
        }
    }
}

// Whether what goes on goes on from what stood under its name in the predecessor of its directory.
fn goes_on_there(before: Option<&DirEntry>, node: &NodeRev) -> bool
    ensures yes { result ≡ true → GoesOnFromEntry (option_map (λ e. entry_value e.now) before.entry) node.now }
    ensures other { result ≡ false → GoesOnFromEntry (option_map (λ e. entry_value e.now) before.entry) node.now → ⊥ }
{
    match &node.predecessor {
        None => true,
        Some(id) => match before {
            None => false,
            Some(before) => same_id(&before.id, id),
        },
    }
}

// Whether what is no copy fits the directory that names it, but for its copy part.
fn fits_edge(
    dir: &NodeRev,
    before: Option<&DirEntry>,
    node: &NodeRev,
    pred: Option<&PlacedNode>,
) -> bool
    ensures yes { (look : RevisionBytes) → Precedes look node.now (option_map (λ u. u.now.node) pred.entry) → result ≡ true → FitsEdge look dir.now node.now (option_map (λ e. entry_value e.now) before.entry) }
    ensures other { (look : RevisionBytes) → Precedes look node.now (option_map (λ u. u.now.node) pred.entry) → result ≡ false → FitsEdge look dir.now node.now (option_map (λ e. entry_value e.now) before.entry) → ⊥ }
{
    if !has_root_of(dir, node, pred) {
        return false;
    }
    goes_on_there(before, node)
}

/// A node-revision of this revision against the directory that names it: what is no copy has the copy root and the copy part
/// that it has to have there, and goes on from what stood there.
pub(crate) fn check_edge<B: Book>(
    alloc: Global,
    book: &mut B,
    rev: RevNum,
    parts: &mut Parts,
    dir: &PlacedNode,
    before: Option<&DirEntry>,
    node: &PlacedNode,
    pred: Option<&PlacedNode>,
) -> Result<(), ReadError>
    ensures told { (look : RevisionBytes) (begun copied drawn : List Part) → Knows (B.told book.old).revs rev look → own_rev node.now.node ≡ rev → is_lasting_part node.now.node.id.copy ≡ true → Precedes look node.now.node (option_map (λ u. u.now.node) pred.entry) → Brought rev parts.old begun copied drawn
        → Finds (λ _. (now : List Part) × TakesEdge look rev copied dir.now.node node.now.node (option_map (λ e. entry_value e.now) before.entry) drawn now × Brought rev parts.new begun copied now)
        (IsWrongEdge look rev copied dir.now.node node.now.node (option_map (λ e. entry_value e.now) before.entry)) result }
    ensures kept { Keeps (B.told book.old) (B.told book.new) }
    ensures cause { HasCause (B.faults book.old) (B.faults book.new) result }
{
    if node.node.copy_from.is_some() {
        return Ok(());
    }
    if !fits_edge(&dir.node, before, &node.node, pred) {
        return Err(breaks_rule(node));
    }
    check_copy_part(alloc, book, rev, parts, dir, node, pred)
}
