//! What the steps of an edit write: made ready in memory, so that nothing is written where memory does not suffice.
//!
//! An `Err` is for a node-revision or an item that has no text, too: one with a path past its limits.
ghost use Rattle.std.specs.Prelude.{IfOk};
ghost use Rattle.fsfs_noderev.specs.Changes.Items.{IsItem};
ghost use Rattle.fsfs_dag.specs.Views.{entry_values};
ghost use Rattle.fsfs_dag.specs.Listing.Views.{listed};
ghost use Rattle.fsfs_dag.specs.Entries.{HasPut, HasTaken};
ghost use Rattle.fsfs_draft.specs.Views.{kept_value};
ghost use Rattle.fsfs_txn_files.specs.Changes.{IsChange};
ghost use Rattle.fsfs_txn_files.specs.Texts.{IsNodeFile};
ghost use Rattle.fsfs_txn_files.specs.declared.folder_file.FolderFile.TheVariants.{Changes, Node};
ghost use Rattle.fsfs_txn_files.specs.declared.change.How.TheVariants.{AtEnd, Whole};
ghost use Rattle.fsfs_txn_nodes.specs.TxnFolder.Written.{IsListFirst, IsNodeLast, TellsNew, TellsEntry, TellsChild, TellsMerged, TellsText, TellsPropsSet, TellsNext, TellsSettled};

use crate::txn_folder::ids::id_fits;
use crate::txn_folder::same::same_noderev;
use fsfs_base::{Kind, Pairs};
use fsfs_dag::Listing;
use fsfs_draft::KeptNode;
use fsfs_layout::NextIds;
use fsfs_noderev::{ChangeItem, NodeId, NodeRev, check_item, check_node, is_told};
use fsfs_txn_files::{FileChange, FolderFile};
use std::alloc::{AllocError, Global};

// The file of a node-revision that stands at an id.
fn node_file(alloc: Global, id: &NodeId, node: &NodeRev) -> Result<FileChange, AllocError>
    ensures { IfOk result (λ c. IsChange c (Node id.now) Whole (IsNodeFile node.now)) }
{
    let Ok(()) = check_node(alloc, node) else {
        return Err(AllocError);
    };
    let mut change = FileChange::node(alloc, node)?;
    change.file = FolderFile::Node(*id);
    Ok(change)
}

// The item of an edit.
fn item_file(alloc: Global, item: &ChangeItem) -> Result<FileChange, AllocError>
    ensures { IfOk result (λ c. IsChange c Changes AtEnd (λ text. IsItem text item.now)) }
{
    match check_item(alloc, item) {
        Ok(()) if is_told(item) => FileChange::item(alloc, item),
        _ => Err(AllocError),
    }
}

// A new node-revision, which has no list of its own.
fn new_files(alloc: Global, node: &NodeRev) -> Result<Vec<FileChange>, AllocError>
    ensures { IfOk result (λ v. TellsNew node.now v.items) }
{
    id_fits(&node.id);
    let file = node_file(alloc, &node.id, node)?;
    let mut files = Vec::new(alloc);
    files.push(file)?;
    Ok(files)
}

// The list with which a directory's `children` file begins, where it has no such file yet.
fn list_first(
    alloc: Global,
    id: &NodeId,
    kept: &KeptNode,
    entries: &Listing,
) -> Result<Vec<FileChange>, AllocError>
    ensures { IfOk result (λ v. IsListFirst id.now (kept_value kept.now).entries (listed entries.now) v.items) }
{
    let mut files = Vec::new(alloc);
    match &kept.entries {
        Some(_) => Ok(files),
        None => {
            let all = entries.to_vec(alloc)?;
            let file = FileChange::children(alloc, id, &all)?;
            files.push(file)?;
            Ok(files)
        }
    }
}

// The file of a node-revision that was another before. Of one that is as it was nothing is written: its file tells it.
fn node_last(
    alloc: Global,
    id: &NodeId,
    old: &NodeRev,
    node: &NodeRev,
) -> Result<Vec<FileChange>, AllocError>
    ensures { IfOk result (λ v. IsNodeLast id.now old.now node.now v.items) }
{
    let mut files = Vec::new(alloc);
    if same_noderev(old, node) {
        return Ok(files);
    }
    let file = node_file(alloc, id, node)?;
    files.push(file)?;
    Ok(files)
}

// An entry that is put into a directory of these entries, in place of the one of its name. `node` is the directory's node-revision
// from then on.
fn put_files(
    alloc: Global,
    id: &NodeId,
    kept: &KeptNode,
    entries: &Listing,
    node: &NodeRev,
    name: &str,
    kind: Kind,
    child: &NodeId,
) -> Result<Vec<FileChange>, AllocError>
    ensures { IfOk result (λ v. TellsEntry id.now (kept_value kept.now) (listed entries.now) node.now (λ old new. HasPut old name.now kind child.now new) v.items) }
{
    let record = FileChange::put_entry(alloc, id, name, kind, child)?;
    let mut last = node_last(alloc, id, &kept.node, node)?;
    let mut files = list_first(alloc, id, kept, entries)?;
    files.push(record)?;
    files.append(&mut last)?;
    Ok(files)
}

/// A new node-revision that is put behind a name of a directory of these entries. `node` is the directory's node-revision from then
/// on.
pub fn child_files(
    alloc: Global,
    id: &NodeId,
    kept: &KeptNode,
    entries: &Listing,
    node: &NodeRev,
    name: &str,
    kind: Kind,
    child: &NodeRev,
) -> Result<Vec<FileChange>, AllocError>
    ensures { IfOk result (λ v. TellsChild id.now (kept_value kept.now) (listed entries.now) node.now child.now (λ old new. HasPut old name.now kind child.now.id new) v.items) }
{
    let mut files = new_files(alloc, child)?;
    let mut put = put_files(alloc, id, kept, entries, node, name, kind, &child.id)?;
    files.append(&mut put)?;
    Ok(files)
}

/// A name whose entry is taken from a directory of these entries.
pub fn taken_files(
    alloc: Global,
    id: &NodeId,
    kept: &KeptNode,
    entries: &Listing,
    node: &NodeRev,
    name: &str,
) -> Result<Vec<FileChange>, AllocError>
    ensures { IfOk result (λ v. TellsEntry id.now (kept_value kept.now) (listed entries.now) node.now (λ old new. HasTaken old name.now new) v.items) }
{
    let record = FileChange::taken_entry(alloc, id, name)?;
    let mut last = node_last(alloc, id, &kept.node, node)?;
    let mut files = list_first(alloc, id, kept, entries)?;
    files.push(record)?;
    files.append(&mut last)?;
    Ok(files)
}

/// The entries of a merged directory.
pub fn merged_files(
    alloc: Global,
    id: &NodeId,
    entries: &Listing,
    node: &NodeRev,
) -> Result<Vec<FileChange>, AllocError>
    ensures { IfOk result (λ v. TellsMerged id.now (listed entries.now) node.now v.items) }
{
    let all = entries.to_vec(alloc)?;
    let list = FileChange::children(alloc, id, &all)?;
    let itself = node_file(alloc, id, node)?;
    let mut files = Vec::new(alloc);
    files.push(list)?;
    files.push(itself)?;
    Ok(files)
}

/// Another text of a file, which stands in the prototype revision file.
pub fn text_files(alloc: Global, id: &NodeId, node: &NodeRev) -> Result<Vec<FileChange>, AllocError>
    ensures { IfOk result (λ v. TellsText id.now node.now v.items) }
{
    let file = node_file(alloc, id, node)?;
    let mut files = Vec::new(alloc);
    files.push(file)?;
    Ok(files)
}

/// Other properties of a node-revision.
pub fn property_files(
    alloc: Global,
    id: &NodeId,
    node: &NodeRev,
    pairs: &Pairs,
) -> Result<Vec<FileChange>, AllocError>
    ensures { IfOk result (λ v. TellsPropsSet id.now node.now pairs.now v.items) }
{
    let list = FileChange::props(alloc, id, pairs)?;
    let itself = node_file(alloc, id, node)?;
    let mut files = Vec::new(alloc);
    files.push(list)?;
    files.push(itself)?;
    Ok(files)
}

/// The numbers that were drawn.
pub fn next_files(alloc: Global, next: &NextIds) -> Result<Vec<FileChange>, AllocError>
    ensures { IfOk result (λ v. TellsNext next.now v.items) }
{
    let file = FileChange::next_ids(alloc, next)?;
    let mut files = Vec::new(alloc);
    files.push(file)?;
    Ok(files)
}

/// What the end of an edit writes: the numbers that were drawn, and the item.
pub fn settled_files(
    alloc: Global,
    next: &NextIds,
    item: &ChangeItem,
) -> Result<Vec<FileChange>, AllocError>
    ensures { IfOk result (λ v. TellsSettled next.now item.now v.items) }
{
    let last = item_file(alloc, item)?;
    let mut files = next_files(alloc, next)?;
    files.push(last)?;
    Ok(files)
}
