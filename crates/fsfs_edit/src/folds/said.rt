//! What is said of a path while items are folded.
ghost use Rattle.std.specs.Prelude.{◌≡◌, IfOk, option_map};
ghost use Rattle.fsfs_edit.specs.Folds.FoldedItems.{begun, after_delete, after_add, after_modify, joined};
ghost use Rattle.fsfs_edit.specs.Folds.Views.{said_value};

use fsfs_base::Action;
use fsfs_noderev::{ChangeItem, same_source};
use std::alloc::AllocError;

/// What is said of a path so far, by items of it.
#[derive(Clone, Copy)]
pub(crate) struct Said<'a> {
    /// The path and the copy source are its.
    pub(crate) item: &'a ChangeItem,
    /// The id and the kind are its.
    pub(crate) named: &'a ChangeItem,
    pub(crate) action: Action,
    pub(crate) text_changed: bool,
    pub(crate) props_changed: bool,
    /// The delete that took away what stood there first, where the action is a delete or a replace.
    pub(crate) was: &'a ChangeItem,
}

/// An item of which nothing was said before.
fn begun<'a>(item: &'a ChangeItem) -> Said<'a>
    ensures { said_value result ≡ begun item.now }
{
    Said {
        item,
        named: item,
        action: item.action,
        text_changed: item.text_changed,
        props_changed: item.props_changed,
        was: item,
    }
}

/// A delete: what was added is forgotten, and what was replaced is what the first delete named.
fn after_delete<'a>(said: Said<'a>, item: &'a ChangeItem) -> Option<Said<'a>>
    ensures { option_map said_value result ≡ after_delete (said_value said.entry).item.action (said_value said.entry) item.now }
{
    match said.action {
        Action::Add => None,
        Action::Delete | Action::Modify => Some(begun(item)),
        Action::Replace => {
            let mut now = begun(item);
            now.named = said.was;
            now.was = said.was;
            Some(now)
        }
    }
}

/// An add: behind a delete it is a replace.
fn after_add<'a>(said: Said<'a>, item: &'a ChangeItem) -> Said<'a>
    ensures { said_value result ≡ after_add (said_value said.entry).item.action (said_value said.entry) item.now }
{
    match said.action {
        Action::Add | Action::Modify | Action::Replace => begun(item),
        Action::Delete => {
            let mut now = begun(item);
            now.action = Action::Replace;
            now.was = said.was;
            now
        }
    }
}

/// A change of the text or of properties.
fn after_modify<'a>(said: Said<'a>, item: &'a ChangeItem) -> Said<'a>
    ensures { said_value result ≡ after_modify (said_value said.entry).item.action (said_value said.entry) item.now }
{
    match said.action {
        Action::Delete => begun(item),
        Action::Add | Action::Modify | Action::Replace => {
            let mut now = said;
            now.text_changed = said.text_changed || item.text_changed;
            now.props_changed = said.props_changed || item.props_changed;
            now
        }
    }
}

/// What is said of a path once one more item of it has come.
pub(crate) fn joined<'a>(before: Option<Said<'a>>, item: &'a ChangeItem) -> Option<Said<'a>>
    ensures { option_map said_value result ≡ joined (option_map said_value before.entry) item.now }
{
    match before {
        None => Some(begun(item)),
        Some(said) => match item.action {
            Action::Add => Some(after_add(said, item)),
            Action::Delete => after_delete(said, item),
            Action::Modify => Some(after_modify(said, item)),
            Action::Replace => Some(begun(item)),
        },
    }
}

/// It as an item.
pub(crate) fn item_of(said: &Said<'_>) -> Result<ChangeItem, AllocError>
    ensures { IfOk result (λ item. item ≡ (said_value said.now).item) }
{
    Ok(ChangeItem {
        id: said.named.id,
        action: said.action,
        kind: said.named.kind,
        text_changed: said.text_changed,
        props_changed: said.props_changed,
        path: said.item.path.clone()?,
        source: same_source(&said.item.source)?,
    })
}
