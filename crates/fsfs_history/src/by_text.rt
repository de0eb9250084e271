//! The items of a revision by the texts of their paths.
ghost use Rattle.std.specs.Prelude.{◌≡◌, IfOk, OnOk, option_map};
ghost use Rattle.std.specs.Cmp.Lexicographic.{slice_cmp};
ghost use Rattle.std.specs.Ordering.{nat_cmp};
ghost use Rattle.std.specs.BTreeMap.{insert_entry};
ghost use Rattle.fsfs_base.specs.Paths.{path_text};
ghost use Rattle.fsfs_stands.specs.ChangedTexts.{by_text, source_at};
ghost use Rattle.fsfs_history.specs.Views.{by_text_value};

use fsfs_base::FsPath;
use fsfs_noderev::{ChangeItem, CopySource};
use std::alloc::{AllocError, Global};
use std::collections::BTreeMap;

/// Items by the texts of their paths, in the order of the bytes of these.
#[derive(Drop)]
pub struct ItemsByText {
    pub items: BTreeMap<Vec<u8>, ChangeItem>,
}

/// The bytes of a path's text.
pub(crate) fn text_of(alloc: Global, path: &FsPath) -> Result<Vec<u8>, AllocError>
    ensures { IfOk result (λ text. text.items ≡ path_text path.now) }
{
    let mut text = Vec::new(alloc);
    path.put_text(&mut text)?;
    Ok(text)
}

impl ItemsByText {
    /// The items, each at the text of its path.
    pub fn of(alloc: Global, items: Vec<ChangeItem>) -> Result<ItemsByText, AllocError>
        ensures { IfOk result (λ found. by_text_value found ≡ by_text items.items) }
    {
        let mut found = ItemsByText {
            items: BTreeMap::new(alloc),
        };
        for item in items {
            found.put(alloc, item)?;
        }
        Ok(found)
    }

    // Puts an item at the text of its path.
    fn put(&mut self, alloc: Global, item: ChangeItem) -> Result<(), AllocError>
        ensures { OnOk result (by_text_value self.new ≡ insert_entry (slice_cmp nat_cmp) (by_text_value self.old) (path_text item.path) item) }
    {
        let text = text_of(alloc, &item.path)?;
        self.items.insert(text, item)?;
        Ok(())
    }

    /// The copy source of the item of this path; none where there is no such item, or it has none.
    pub(crate) fn source_at(
        &self,
        alloc: Global,
        path: &FsPath,
    ) -> Result<Option<&CopySource>, AllocError>
        ensures { IfOk result (λ source. option_map (λ s. (s.now.rev, s.now.path)) source ≡ source_at (by_text_value self.now) path.now) }
    {
        let text = text_of(alloc, path)?;
        match self.items.get(text.as_slice()) {
            None => Ok(None),
            Some(item) => Ok(item.source.as_ref()),
        }
    }
}
