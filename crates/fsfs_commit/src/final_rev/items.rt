//! The changed paths of the revision.
ghost use Rattle.std.specs.Prelude.{◌≡◌, All, IfOk, IfErr, OnOk, map};
ghost use Rattle.fsfs_noderev.specs.Changes.Items.{HasText};
ghost use Rattle.fsfs_noderev.specs.Limits.{IsItemPast};
ghost use Rattle.fsfs_final.specs.Pieces.Naming.{ids_of};
ghost use Rattle.fsfs_commit.specs.FinalRev.Items.{own_item, told_item, AreFinalItems, IsUntold, IsOneUntold, IsOneItemPast};
ghost use Rattle.fsfs_commit.specs.FinalRev.Texts.{IsRefused};

use crate::final_rev::error::FinalError;
use fsfs_base::{Action, FsPath, TxnName};
use fsfs_edit::fold;
use fsfs_final::name_final;
use fsfs_noderev::{ChangeItem, NodeId, Place, check_item, is_told};
use std::alloc::{AllocError, Global};
use std::collections::BTreeMap;

// An item that is no delete names a node-revision of the transaction.
fn name_own(txn: &TxnName, item: &mut ChangeItem)
    ensures { item.new ≡ own_item txn.now item.old }
{
    match item.action {
        Action::Delete => {}
        Action::Add => item.id.place = Place::In(*txn),
        Action::Replace => item.id.place = Place::In(*txn),
        Action::Modify => item.id.place = Place::In(*txn),
    }
}

// The item as the revision tells it. Of a whole transaction each item that is no delete names what stands at its path in the
// revision; where none of its node-revisions stands there, its id is one of the transaction.
fn tell(txn: &TxnName, ids: &BTreeMap<FsPath, NodeId>, item: &mut ChangeItem)
    ensures { item.new ≡ told_item txn.now (ids_of ids.now) item.old }
{
    name_own(txn, item);
    name_final(ids, item);
}

fn told_items(
    alloc: Global,
    folded: Vec<ChangeItem>,
    txn: &TxnName,
    ids: &BTreeMap<FsPath, NodeId>,
) -> Result<Vec<ChangeItem>, AllocError>
    ensures { IfOk result (λ v. v.items ≡ map (told_item txn.now (ids_of ids.now)) folded.items) }
{
    let mut left = folded;
    left.reverse();
    let mut all = Vec::new(alloc);
    while let Some(item) = left.pop() {
        let mut there = item;
        tell(txn, ids, &mut there);
        all.push(there)?;
    }
    Ok(all)
}

// Whether an item has a text.
fn check_text(alloc: Global, item: &ChangeItem) -> Result<(), FinalError>
    ensures text { OnOk result (HasText item.now) }
    ensures refused { IfErr result (IsRefused (IsUntold item.now) (λ limit. IsItemPast limit item.now)) }
{
    check_item(alloc, item)?;
    if !is_told(item) {
        return Err(FinalError::Lacking);
    }
    Ok(())
}

// Whether each item has a text.
fn check_texts(alloc: Global, items: &[ChangeItem]) -> Result<(), FinalError>
    ensures text { OnOk result (All HasText items.now) }
    ensures refused { IfErr result (IsRefused (IsOneUntold items.now) (λ limit. IsOneItemPast limit items.now)) }
{
    for item in items {
        check_text(alloc, item)?;
    }
    Ok(())
}

/// What the items of a transaction come to, in byte order of the paths' texts, as the revision tells it: `ids` gives the ids in the
/// revision of what is the transaction's own.
pub(crate) fn final_items(
    alloc: Global,
    items: &[ChangeItem],
    txn: &TxnName,
    ids: &BTreeMap<FsPath, NodeId>,
) -> Result<Vec<ChangeItem>, FinalError>
    ensures items { IfOk result (λ v. AreFinalItems txn.now items.now (ids_of ids.now) v.items) }
    ensures refused { IfErr result (IsRefused (IsOneUntold items.now) (λ limit. IsOneItemPast limit items.now)) }
{
    check_texts(alloc, items)?;
    let folded = fold(alloc, items)?;
    let told = told_items(alloc, folded, txn, ids)?;
    Ok(told)
}
