//! What the lists and the changed paths of the revision name: node-revisions by their ids in the revision.
ghost use Rattle.std.specs.Prelude.{◌≡◌, IfOk, map, unwrap_or};
ghost use Rattle.std.specs.BTreeMap.{get_by};
ghost use Rattle.fsfs_base.specs.Paths.{path_cmp};
ghost use Rattle.fsfs_dag.specs.Views.{entry_value, entry_values};
ghost use Rattle.fsfs_final.specs.Pieces.Naming.{ids_of, final_id as final_id_of, final_entry, final_item};

use fsfs_base::{Action, FsPath};
use fsfs_dag::DirEntry;
use fsfs_noderev::{ChangeItem, NodeId};
use fsfs_revision::is_revision_id;
use std::alloc::{AllocError, Global};
use std::collections::BTreeMap;

// The id of a path in the revision, if there is one, or another.
fn id_or(ids: &BTreeMap<FsPath, NodeId>, path: &FsPath, id: NodeId) -> NodeId
    ensures { result ≡ unwrap_or (get_by (path_cmp path.now) ids.now) id }
{
    match ids.get(path) {
        Some(there) => *there,
        None => id,
    }
}

// The id in the revision of what an entry of a directory names.
fn final_id(
    alloc: Global,
    ids: &BTreeMap<FsPath, NodeId>,
    dir: &FsPath,
    entry: &DirEntry,
) -> Result<NodeId, AllocError>
    ensures { IfOk result (λ id. id ≡ final_id_of (ids_of ids.now) dir.now (entry_value entry.now)) }
{
    if is_revision_id(&entry.id) {
        return Ok(entry.id);
    }
    let path = dir.child(alloc, entry.name.as_str())?;
    Ok(id_or(ids, &path, entry.id))
}

/// The entries of a directory of the transaction as they stand in the revision: `ids` gives the ids in the revision of what is the
/// transaction's own, by its path.
pub fn final_entries(
    alloc: Global,
    ids: &BTreeMap<FsPath, NodeId>,
    dir: &FsPath,
    entries: &[DirEntry],
) -> Result<Vec<DirEntry>, AllocError>
    ensures { IfOk result (λ all. entry_values all.items ≡ map (final_entry (ids_of ids.now) dir.now) (entry_values entries.now)) }
{
    let mut all = Vec::new(alloc);
    for entry in entries {
        let name = String::from_str(alloc, entry.name.as_str())?;
        let id = final_id(alloc, ids, dir, entry)?;
        all.push(DirEntry {
            name,
            kind: entry.kind,
            id,
        })?;
    }
    Ok(all)
}

/// Names in an item of the changed paths what stands at its path in the revision; a delete names what it took away.
pub fn name_final(ids: &BTreeMap<FsPath, NodeId>, item: &mut ChangeItem)
    ensures { item.new ≡ final_item (ids_of ids.now) item.old }
{
    match item.action {
        Action::Delete => {}
        Action::Add => item.id = id_or(ids, &item.path, item.id),
        Action::Replace => item.id = id_or(ids, &item.path, item.id),
        Action::Modify => item.id = id_or(ids, &item.path, item.id),
    }
}
