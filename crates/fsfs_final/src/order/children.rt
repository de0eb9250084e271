//! What stands in an own directory, of the transaction's own.
ghost use Rattle.std.specs.Prelude.{◌≡◌, ◌∷◌, true, false, cond, None, Some, IfOk, IfErr, OnOk};
ghost use Rattle.fsfs_base.specs.Paths.{PathName, same_name};
ghost use Rattle.fsfs_revision.specs.Nodes.{is_revision_id};
ghost use Rattle.fsfs_dag.specs.Views.{entry_value, entry_values};
ghost use Rattle.fsfs_draft.specs.Steps.{kept_at};
ghost use Rattle.fsfs_draft.specs.Views.{kept_value};
ghost use Rattle.fsfs_final.specs.Order.Orders.{last_first};
ghost use Rattle.fsfs_final.specs.Order.Children.{id_named, own_of, own_named, ids_in, IsPushed, ArePushed, LacksChild, IfLacking};

use crate::order::error::OrderError;
use fsfs_dag::DirEntry;
use fsfs_draft::{KeptNode, Own};
use fsfs_noderev::NodeId;
use fsfs_revision::is_revision_id;
use std::alloc::{AllocError, Global};
use std::collections::BTreeMap;

// Gives the name of an entry its id, where that is the transaction's own, and no id else.
fn put_own_id(
    alloc: Global,
    ids: &mut BTreeMap<String, NodeId>,
    entry: &DirEntry,
) -> Result<(), AllocError>
    ensures { OnOk result ((name : PathName) → ids_in ids.new name ≡ cond (same_name (entry_value entry.now).name name) (own_of (Some entry.now.id)) (ids_in ids.old name)) }
{
    if is_revision_id(&entry.id) {
        ids.remove(entry.name.as_str());
        return Ok(());
    }
    let name = String::from_str(alloc, entry.name.as_str())?;
    ids.insert(name, entry.id)?;
    Ok(())
}

// The id of each name that leads to what is the transaction's own; the first entry of a name counts.
fn own_ids(alloc: Global, entries: &[DirEntry]) -> Result<BTreeMap<String, NodeId>, AllocError>
    ensures { IfOk result (λ ids. (name : PathName) → ids_in ids name ≡ own_named (entry_values entries.now) name) }
{
    let mut ids = BTreeMap::new(alloc);
    let mut left = entries;
    while let [before @ .., entry] = left {
        put_own_id(alloc, &mut ids, entry)?;
        left = before;
    }
    Ok(ids)
}

/// Puts a node-revision at the end of a list.
pub(crate) fn push<'a>(list: &mut Vec<&'a KeptNode>, kept: &'a KeptNode) -> Result<(), AllocError>
    ensures { OnOk result (last_first list.new.items ≡ kept_value kept.now ∷ last_first list.old.items) }
{
    list.push(kept)?;
    Ok(())
}

// Puts the node-revision of an id, where that is the transaction's own.
fn push_own<'a, N: Own>(
    own: &'a N,
    id: &NodeId,
    next: &mut Vec<&'a KeptNode>,
) -> Result<(), OrderError>
    ensures lasting { is_revision_id id.now ≡ true → OnOk result (last_first next.new.items ≡ last_first next.old.items) }
    ensures own { is_revision_id id.now ≡ false → OnOk result (IsPushed (kept_at (N.folder own.now).nodes id.now) (last_first next.old.items) (last_first next.new.items)) }
    ensures lacking { IfErr result (λ e. IfLacking e ((is_revision_id id.now ≡ false) × (kept_at (N.folder own.now).nodes id.now ≡ None))) }
{
    if is_revision_id(id) {
        return Ok(());
    }
    let Some(kept) = own.kept(id) else {
        return Err(OrderError::Lacking);
    };
    push(next, kept)?;
    Ok(())
}

// Puts the own node-revisions of these names, in byte order of the names.
fn push_named<'a, N: Own>(
    own: &'a N,
    ids: BTreeMap<String, NodeId>,
    next: &mut Vec<&'a KeptNode>,
) -> Result<(), OrderError>
    ensures pushed { OnOk result (ArePushed (N.folder own.now).nodes (ids_in ids) (last_first next.old.items) (last_first next.new.items)) }
    ensures lacking { IfErr result (λ e. IfLacking e (LacksChild (N.folder own.now).nodes (ids_in ids))) }
{
    let mut left = ids;
    while let Some((_name, id)) = left.pop_first() {
        push_own(own, &id, next)?;
    }
    Ok(())
}

/// Puts the own node-revisions that stand in a directory at the end of a list, in byte order of their names.
pub(crate) fn push_children<'a, N: Own>(
    alloc: Global,
    own: &'a N,
    dir: &KeptNode,
    next: &mut Vec<&'a KeptNode>,
) -> Result<(), OrderError>
    ensures pushed { OnOk result (ArePushed (N.folder own.now).nodes (id_named (kept_value dir.now).entries) (last_first next.old.items) (last_first next.new.items)) }
    ensures lacking { IfErr result (λ e. IfLacking e (LacksChild (N.folder own.now).nodes (id_named (kept_value dir.now).entries))) }
{
    match &dir.entries {
        None => Ok(()),
        Some(entries) => {
            let all = entries.to_vec(alloc)?;
            let ids = own_ids(alloc, all.as_slice())?;
            push_named(own, ids, next)
        }
    }
}
