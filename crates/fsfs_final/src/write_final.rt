//! Own node-revisions, each behind its lists.
ghost use Rattle.std.specs.Prelude.{IfOk, IfErr, OnOk, option_map};
ghost use Rattle.fsfs_noderev.specs.Limits.{IfPast, IsNodePast};
ghost use Rattle.fsfs_draft.specs.Views.{kept_value};
ghost use Rattle.fsfs_final.specs.Pieces.Naming.{ids_of};
ghost use Rattle.fsfs_final.specs.Order.Orders.{last_first};
ghost use Rattle.fsfs_final.specs.Putting.{IsFinalText, IsNextPut, ArePut, IsOnePast, no_ids};

use crate::pieces::naming::final_entries;
use crate::pieces::nodes::put_node;
use fsfs_base::{FsPath, RevNum};
use fsfs_dag::entry_dump;
use fsfs_draft::KeptNode;
use fsfs_noderev::{LimitError, NodeId, check_node};
use std::alloc::{AllocError, Global};
use std::collections::BTreeMap;

// The text of the list of a directory that has a file of its own for it, as it stands in the revision.
fn final_list(
    alloc: Global,
    kept: &KeptNode,
    ids: &BTreeMap<FsPath, NodeId>,
) -> Result<Option<Vec<u8>>, AllocError>
    ensures { IfOk result (λ text. IsFinalText (ids_of ids.now) (kept_value kept.now) (option_map (λ v. v.items) text)) }
{
    match &kept.entries {
        None => Ok(None),
        Some(entries) => {
            let all = entries.to_vec(alloc)?;
            let named = final_entries(alloc, ids, &kept.node.created_path, all.as_slice())?;
            let text = entry_dump(alloc, named.as_slice())?;
            Ok(Some(text))
        }
    }
}

// Puts one own node-revision, behind those in it, and notes its id in the revision. One with a path past its limits has no text.
fn put_next(
    alloc: Global,
    out: &mut Vec<u8>,
    rev: RevNum,
    start: u64,
    kept: &KeptNode,
    ids: &mut BTreeMap<FsPath, NodeId>,
) -> Result<(), LimitError>
    ensures put { OnOk result (IsNextPut rev start out.old.items out.new.items (kept_value kept.now) (ids_of ids.old) (ids_of ids.new)) }
    ensures past { IfErr result (IfPast (λ limit. IsNodePast limit kept.now.node)) }
{
    check_node(alloc, &kept.node)?;
    let text = final_list(alloc, kept, &*ids)?;
    let done = put_node(alloc, out, rev, start, &kept.node, &text, &kept.props)?;
    let path = kept.node.created_path.clone()?;
    ids.insert(path, done.id)?;
    Ok(())
}

/// Puts own node-revisions at the end of a buffer, from the end of the list on: so what is in a directory stands before it in the
/// revision. Answers their ids in the revision, by their paths. The buffer begins at the offset `start` of the revision.
///
/// An `Err` for want of memory is for an offset that there is no number for, too.
pub fn put_all(
    alloc: Global,
    order: Vec<&KeptNode>,
    out: &mut Vec<u8>,
    rev: RevNum,
    start: u64,
) -> Result<BTreeMap<FsPath, NodeId>, LimitError>
    ensures put { IfOk result (λ ids. ArePut rev start (last_first order.entry.items) out.old.items no_ids out.new.items (ids_of ids)) }
    // A path of one of them is past that limit.
    ensures past { IfErr result (IfPast (λ limit. IsOnePast limit (last_first order.entry.items))) }
{
    let mut left = order;
    let mut ids = BTreeMap::new(alloc);
    while let Some(kept) = left.pop() {
        put_next(alloc, out, rev, start, kept, &mut ids)?;
    }
    Ok(ids)
}
