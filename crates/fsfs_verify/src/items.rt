//! The changed paths of a revision against its tree.
ghost use Rattle.std.specs.Prelude.{◌≡◌, ◌≤◌, ◌++◌, ℕ, List, Option, true, false, Some, Ok, IfOk, IfErr, length, option_map, slice_get};
ghost use Rattle.fsfs_base.specs.declared.action.Action.TheVariants.{Delete};
ghost use Rattle.fsfs_base.specs.declared.kind.Kind.TheVariants.{Dir};
ghost use Rattle.fsfs_noderev.specs.Changes.Texts.{AreRevisionChanges};
ghost use Rattle.fsfs_noderev.specs.declared.changes.item.ChangeItem.{ChangeItem};
ghost use Rattle.fsfs_revision.specs.declared.wrong.ReadError.TheVariants.{OutOfMemory};
ghost use Rattle.fsfs_revision.specs.declared.wrong.Wrong.{Wrong};
ghost use Rattle.fsfs_revision.specs.Damage.Causes.{HasCause};
ghost use Rattle.fsfs_revision.specs.Nodes.{is_revision_id};
ghost use Rattle.fsfs_revision.specs.Told.{RevisionBytes, Knows, Keeps};
ghost use Rattle.fsfs_revision.specs.Shows.Reading.{RootOf};
ghost use Rattle.fsfs_stands.specs.Items.{ItemsOf};
ghost use Rattle.fsfs_dag.specs.Views.{met_value};
ghost use Rattle.fsfs_sound.specs.Damaged.{BeginsAt, IsDamaged};
ghost use Rattle.fsfs_verify.specs.Finds.{Finds};
ghost use Rattle.fsfs_verify.specs.ItemFaults.{id_met, FitsThere, IsOfLater, HasKindOf, IsTold, IsWrongKind, IsWrongAt};
ghost use Rattle.fsfs_verify.specs.ReadDirs.{AreDirs};
ghost use Rattle.fsfs_sound.specs.Revisions.{IsSoundItem, HasSoundItems};

use crate::dirs::ReadDirs;
use fsfs_base::{Action, RevNum};
use fsfs_dag::{Met, PlacedNode, named_node, node_at, same_id};
use fsfs_history::{ReadItems, changes_data, is_nameable, items_of};
use fsfs_noderev::{ChangeItem, NodeId, read_item};
use fsfs_revision::{Book, DamageKind, ReadError, RevOffset, is_revision_id};
use std::alloc::Global;

// The bytes behind so many items.
fn skip_items<'a>(alloc: Global, bytes: &'a [u8], count: usize) -> Result<&'a [u8], ReadError>
    ensures behind { (items : List ChangeItem) (front tail : List ℕ) → bytes.now ≡ front ++ tail → AreRevisionChanges front items → length items ≡ count → IfOk result (λ rest. rest.now ≡ tail) }
    ensures within { IfOk result (λ rest. length rest.now ≤ length bytes.now) }
    ensures failed { IfErr result (λ e. e ≡ OutOfMemory) }
{
    let mut rest = bytes;
    for _done in 0..count {
        let Ok(Some((_, behind))) = read_item(alloc, rest) else {
            return Err(ReadError::OutOfMemory);
        };
        rest = behind;
    }
    Ok(rest)
}

// Where an item begins, from the beginning of the revision's bytes: the one with so many before it.
fn item_place<B: Book>(
    alloc: Global,
    book: &mut B,
    rev: RevNum,
    before: usize,
) -> Result<u64, ReadError>
    ensures told { (look : RevisionBytes) (items : List ChangeItem) (wrong : Option Wrong) → Knows (B.told book.old).revs rev look → ItemsOf look rev (Ok (items, wrong))
        → Finds (λ at. (item : ChangeItem) → slice_get items before ≡ Some item → BeginsAt look rev item at) (λ _. ⊥) result }
    ensures kept { Keeps (B.told book.old) (B.told book.new) }
    ensures cause { HasCause (B.faults book.old) (B.faults book.new) result }
{
    let data = changes_data(alloc, book, rev)?;
    let rest = skip_items(alloc, &data.bytes, before)?;
    let at = (data.bytes.len() - rest.len()) as u64;
    match data.begins.checked_add(at) {
        Some(offset) => Ok(offset),
        None => Err(ReadError::OutOfMemory),
    }
}

fn is_delete(action: &Action) -> bool
    ensures yes { result ≡ true → action.now ≡ Delete }
    ensures other { result ≡ false → action.now ≡ Delete → ⊥ }
{
    match action {
        Action::Delete => true,
        Action::Add | Action::Replace | Action::Modify => false,
    }
}

// Whether an item's id is this one, unless it is a transaction's.
fn names_it(told: &NodeId, id: &NodeId) -> bool
    ensures yes { result ≡ true → is_revision_id told.now ≡ true → told.now ≡ id.now }
    ensures other { result ≡ false → (is_revision_id told.now ≡ true) × (told.now ≡ id.now → ⊥) }
{
    if is_revision_id(told) {
        return same_id(told, id);
    }
    true
}

// Whether an item says that this stands at its path: it deletes nothing, and names it, unless its id is a transaction's.
fn fits_id(item: &ChangeItem, id: &NodeId) -> bool
    ensures yes { result ≡ true → FitsThere item.now (Some id.now) }
    ensures other { result ≡ false → FitsThere item.now (Some id.now) → ⊥ }
{
    if is_delete(&item.action) {
        return false;
    }
    names_it(&item.id, id)
}

// Whether what the tree names at its path, if it names something there, is what an item says: nothing where it was deleted;
// else something, and of the item's id, unless that is a transaction's.
fn fits(item: &ChangeItem, there: Option<&NodeId>) -> bool
    ensures yes { result ≡ true → FitsThere item.now (option_map (λ id. id.now) there.entry) }
    ensures other { result ≡ false → FitsThere item.now (option_map (λ id. id.now) there.entry) → ⊥ }
{
    match there {
        None => is_delete(&item.action),
        Some(id) => fits_id(item, id),
    }
}

// Whether what stands at its path is what an item says.
fn fits_met(item: &ChangeItem, met: &Met) -> bool
    ensures yes { result ≡ true → FitsThere item.now (id_met (met_value met.now)) }
    ensures other { result ≡ false → FitsThere item.now (id_met (met_value met.now)) → ⊥ }
{
    match met {
        Met::Node(found) => fits(item, Some(&found.node.id)),
        Met::Absent(_) | Met::File(_) => fits(item, None),
    }
}

// Whether the kind of what an item is about is told: by the item, or by a node-revision that its revision could name.
fn has_kind(rev: RevNum, item: &ChangeItem) -> bool
    ensures yes { result ≡ true → IsOfLater rev item.now → ⊥ }
    ensures other { result ≡ false → IsOfLater rev item.now }
{
    item.kind.is_some() || !is_revision_id(&item.id) || is_nameable(rev, &item.id)
}

// The node-revision that tells the kind of what an item is about.
fn check_kind<B: Book>(
    alloc: Global,
    book: &mut B,
    rev: RevNum,
    item: &ChangeItem,
) -> Result<(), ReadError>
    ensures told { (look : RevisionBytes) → Knows (B.told book.old).revs rev look → Finds (λ _. HasKindOf look rev item.now) (IsWrongKind look rev item.now) result }
    ensures kept { Keeps (B.told book.old) (B.told book.new) }
    ensures cause { HasCause (B.faults book.old) (B.faults book.new) result }
{
    if item.kind.is_some() {
        return Ok(());
    }
    if !is_nameable(rev, &item.id) {
        return Ok(());
    }
    let _named = named_node(alloc, book, &item.id)?;
    Ok(())
}

// Whether an item says what the tree says. Where the directories that were read say another thing, the tree is walked from the
// root, so that what is wrong there is told.
fn is_true<B: Book>(
    alloc: Global,
    book: &mut B,
    rev: RevNum,
    dirs: &mut ReadDirs,
    item: &ChangeItem,
) -> Result<bool, ReadError>
    ensures told { (look : RevisionBytes) → Knows (B.told book.old).revs rev look → AreDirs look rev dirs.old
        → Finds (λ yes. IsTold look rev item.now yes × AreDirs look rev dirs.new) (IsWrongAt look rev item.now) result }
    ensures kept { Keeps (B.told book.old) (B.told book.new) }
    ensures cause { HasCause (B.faults book.old) (B.faults book.new) result }
{
    check_kind(alloc, book, rev, item)?;
    if !has_kind(rev, item) {
        return Ok(false);
    }
    let there = dirs.id_at(alloc, book, &item.path)?;
    if fits(item, there.as_ref()) {
        return Ok(true);
    }
    let met = node_at(alloc, book, rev, &item.path)?;
    Ok(fits_met(item, &met))
}

// An item, with so many before it.
fn check_item<B: Book>(
    alloc: Global,
    book: &mut B,
    rev: RevNum,
    dirs: &mut ReadDirs,
    item: &ChangeItem,
    before: usize,
) -> Result<(), ReadError>
    ensures told { (look props : RevisionBytes) (items : List ChangeItem) (wrong : Option Wrong) → Knows (B.told book.old).revs rev look → ItemsOf look rev (Ok (items, wrong)) → slice_get items before ≡ Some item.now → AreDirs look rev dirs.old
        → Finds (λ _. IsSoundItem look rev item.now × AreDirs look rev dirs.new) (IsDamaged look props rev) result }
    ensures kept { Keeps (B.told book.old) (B.told book.new) }
    ensures cause { HasCause (B.faults book.old) (B.faults book.new) result }
{
    if is_true(alloc, book, rev, dirs, item)? {
        return Ok(());
    }
    let offset = item_place(alloc, book, rev, before)?;
    let at = RevOffset { rev, offset };
    Err(ReadError::damaged(at, DamageKind::ChangePath))
}

/// The items of a revision against its tree, in the order of the revision's bytes: Changes where one is none, ChangePath where one
/// says what the tree doesn't.
pub(crate) fn check_items<B: Book>(
    alloc: Global,
    book: &mut B,
    rev: RevNum,
    root: &PlacedNode,
) -> Result<(), ReadError>
    requires { root.now.node.kind ≡ Dir }
    ensures told { (look props : RevisionBytes) → Knows (B.told book.old).revs rev look → RootOf look rev (Ok root.now.node) → Finds (λ _. HasSoundItems look rev) (IsDamaged look props rev) result }
    ensures kept { Keeps (B.told book.old) (B.told book.new) }
    ensures cause { HasCause (B.faults book.old) (B.faults book.new) result }
{
    let ReadItems { items, wrong } = items_of(alloc, book, rev)?;
    let mut dirs = ReadDirs::of(alloc, book, root)?;
    let mut before = 0usize;
    for item in &items {
        check_item(alloc, book, rev, &mut dirs, item, before)?;
        before += 1;
    }
    match wrong {
        None => Ok(()),
        Some(wrong) => Err(ReadError::Wrong(wrong)),
    }
}
