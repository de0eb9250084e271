//! Folding: one item for each path that has changed.
ghost use Rattle.std.specs.Prelude.{◌≡◌, ℕ, List, [], All, IfOk, OnOk, None, map};
ghost use Rattle.std.specs.Cmp.Lexicographic.{slice_cmp};
ghost use Rattle.std.specs.Ordering.{nat_cmp};
ghost use Rattle.std.specs.List.{AllZip};
ghost use Rattle.std.specs.List.Sorted.{IsStrictlySortedBy};
ghost use Rattle.indexmap.specs.IndexMap.{get_by_text};
ghost use Rattle.fsfs_base.specs.Paths.{Path, names_text};
ghost use Rattle.fsfs_model.specs.declared.flat.mark.Mark.{Mark};
ghost use Rattle.fsfs_model.specs.Flat.Folding.{fold as flat_fold};
ghost use Rattle.fsfs_noderev.specs.Changes.Items.{HasText};
ghost use Rattle.fsfs_noderev.specs.Changes.Texts.{HavePathsOnce};
ghost use Rattle.fsfs_edit.specs.Folds.FoldedItems.{HasPath, fold_items, item_at, text_of};
ghost use Rattle.fsfs_edit.specs.Folds.Lasting.{lasting, say_by_key, say_all_by_key};
ghost use Rattle.fsfs_edit.specs.Folds.Marks.{SaysMark, AgreesWith};
ghost use Rattle.fsfs_edit.specs.Folds.Views.{told, items_told};

use crate::folds::keys::key_of;
use crate::folds::lasting::lasting;
use crate::folds::said::{Said, item_of, joined};
use fsfs_noderev::ChangeItem;
use indexmap::IndexMap;
use std::alloc::{AllocError, Global};

/// Says one more item of its path.
fn say<'a>(
    alloc: Global,
    said: &mut IndexMap<String, Option<Said<'a>>>,
    item: &'a ChangeItem,
) -> Result<(), AllocError>
    ensures { OnOk result ((key : List ℕ) → told (get_by_text said.new key) ≡ say_by_key key (told (get_by_text said.old key)) item.now) }
{
    let key = key_of(alloc, &item.path)?;
    let before = match said.get(key.as_str()) {
        None => None,
        Some(before) => *before,
    };
    said.insert(key, joined(before, item))?;
    Ok(())
}

/// What the items say of each path, by the path's key: nothing, where an add and its delete leave nothing.
fn said_of<'a>(
    alloc: Global,
    items: &'a [ChangeItem],
) -> Result<IndexMap<String, Option<Said<'a>>>, AllocError>
    requires { All HasPath items.now }
    ensures { IfOk result (λ said. (key : List ℕ) → told (get_by_text said key) ≡ say_all_by_key key None (lasting items.now)) }
{
    let mut left = lasting(alloc, items)?;
    let mut said = IndexMap::new(alloc);
    while let Some(item) = left.pop() {
        say(alloc, &mut said, item)?;
    }
    Ok(said)
}

/// The items of those paths of which something is said, in the order of the map.
fn items_of(
    alloc: Global,
    said: &IndexMap<String, Option<Said<'_>>>,
) -> Result<Vec<ChangeItem>, AllocError>
    ensures { IfOk result (λ v. v.items ≡ items_told (map (λ e. e.1) said.now.entries)) }
{
    let mut items = Vec::new(alloc);
    for value in said.values() {
        match value {
            None => {}
            Some(said) => items.push(item_of(said)?)?,
        }
    }
    Ok(items)
}

/// Folds the items of a transaction, in the order of its edits, into one item at most for each path, in the order of the
/// bytes of the paths' texts.
///
/// An add and its delete leave nothing, a delete and an add are a replace, and a change of what was added or replaced goes
/// into that; a delete takes away what was said of the paths below it. The id and the kind of a delete are those of what
/// the first delete of the path took away; any other item has those of the add, or of the first change.
/// (The libsvn_fs_fs structure file, on changed-path data; the pairs are folded as libsvn_fs_fs folds them.)
pub fn fold(alloc: Global, items: &[ChangeItem]) -> Result<Vec<ChangeItem>, AllocError>
    requires paths { All HasPath items.now }
    // What each path comes to, of all fields of an item.
    ensures each { IfOk result (λ v. (p : Path) → item_at v.items p ≡ fold_items items.now p) }
    // Where the items are those of marks, they come to what the marks come to.
    ensures marks { (marks : List Mark) → AllZip SaysMark items.now marks → IfOk result (λ v. (p : Path) → AgreesWith (item_at v.items p) (flat_fold marks p)) }
    ensures rising { IfOk result (λ v. IsStrictlySortedBy (slice_cmp nat_cmp) (map text_of v.items)) }
    ensures once { IfOk result (λ v. HavePathsOnce [] v.items) }
    ensures text { All HasText items.now → IfOk result (λ v. All HasText v.items) }
{
    let mut said = said_of(alloc, items)?;
    said.sort_keys()?;
    items_of(alloc, &said)
}
