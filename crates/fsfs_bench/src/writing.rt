//! What was read, written again.
ghost use Rattle.std.specs.Prelude.{◌≡◌, true, All, IfOk};
ghost use Rattle.fsfs_noderev.specs.Changes.Items.{HasText};

use anyhow::{Result, bail};
use fsfs_base::Pairs;
use fsfs_layout::{read_hash, write_hash};
use fsfs_noderev::{ChangeItem, check_item, is_told, read_changes, write_changes};
use std::alloc::Global;

pub(crate) fn read_pairs(alloc: Global, bytes: &[u8]) -> Result<Pairs> {
    match read_hash(alloc, bytes) {
        Ok(pairs) => Ok(pairs),
        Err(_) => bail!("the dump is refused"),
    }
}

/// Writes the pairs, and answers how many bytes they take.
pub(crate) fn put_dump(alloc: Global, pairs: &Pairs) -> Result<usize> {
    let text = write_hash(alloc, pairs)?;
    Ok(text.len())
}

fn has_text(alloc: Global, item: &ChangeItem) -> bool
    ensures { result ≡ true → HasText item.now }
{
    match check_item(alloc, item) {
        Ok(()) => is_told(item),
        Err(_) => false,
    }
}

fn have_texts(alloc: Global, items: &[ChangeItem]) -> bool
    ensures { result ≡ true → All HasText items.now }
{
    for item in items {
        if !has_text(alloc, item) {
            return false;
        }
    }
    true
}

/// The items of these bytes, each of which can be written.
pub(crate) fn read_items(alloc: Global, bytes: &[u8]) -> Result<Vec<ChangeItem>>
    ensures texts { IfOk result (λ v. All HasText v.items) }
{
    match read_changes(alloc, bytes) {
        Ok(items) if have_texts(alloc, &items) => Ok(items),
        _ => bail!("the changes are refused"),
    }
}

/// Writes the items, and answers how many bytes they take.
pub(crate) fn put_changes(alloc: Global, items: &[ChangeItem]) -> Result<usize>
    requires { All HasText items.now }
{
    let text = write_changes(alloc, items)?;
    Ok(text.len())
}
