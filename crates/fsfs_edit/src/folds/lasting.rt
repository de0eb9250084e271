//! The items that no later delete takes away.
ghost use Rattle.std.specs.Prelude.{◌≡◌, ℕ, List, All, IfOk, OnOk, map, reverse};
ghost use Rattle.indexmap.specs.IndexSet.{contains_text};
ghost use Rattle.fsfs_edit.specs.Folds.FoldedItems.{HasPath};
ghost use Rattle.fsfs_edit.specs.Folds.Lasting.{lasting, is_deleted_after};

use crate::folds::keys::{is_below_any, key_of};
use fsfs_base::Action;
use fsfs_noderev::ChangeItem;
use indexmap::IndexSet;
use std::alloc::{AllocError, Global};

/// Puts the path of an item that is a delete into the set.
fn note_deleted(
    alloc: Global,
    deleted: &mut IndexSet<String>,
    item: &ChangeItem,
) -> Result<(), AllocError>
    ensures { OnOk result ((key : List ℕ) → contains_text deleted.new key ≡ is_deleted_after key item.now (contains_text deleted.old key)) }
{
    match item.action {
        Action::Delete => {
            deleted.insert(key_of(alloc, &item.path)?)?;
            Ok(())
        }
        Action::Add | Action::Replace | Action::Modify => Ok(()),
    }
}

/// The items behind which nothing above their path is deleted, the last of them first.
pub(crate) fn lasting<'a>(
    alloc: Global,
    items: &'a [ChangeItem],
) -> Result<Vec<&'a ChangeItem>, AllocError>
    requires { All HasPath items.now }
    ensures { IfOk result (λ v. reverse (map (λ item. item.now) v.items) ≡ lasting items.now) }
{
    let mut deleted = IndexSet::new(alloc);
    let mut found = Vec::new(alloc);
    let mut left = items;
    while let [before @ .., item] = left {
        if !is_below_any(alloc, &deleted, &item.path)? {
            found.push(item)?;
        }
        note_deleted(alloc, &mut deleted, item)?;
        left = before;
    }
    Ok(found)
}
