//! The words of an item's first line.
ghost use Rattle.std.specs.Prelude.{◌≡◌, OnOk};
ghost use Rattle.fsfs_base.specs.Grammar.Relations.{Appends};
ghost use Rattle.fsfs_noderev.specs.Fields.{IsKindText};
ghost use Rattle.fsfs_noderev.specs.Changes.Words.{IsFlagText, IsActionText, flags_fit};
ghost use Rattle.fsfs_noderev.specs.Changes.Reading.{flag_at, action_at, kind_at, action_and_kind_at};

use fsfs_base::cuts::cut_at;
use fsfs_base::{Action, Kind};

pub(crate) fn flag_of(text: &[u8]) -> Option<bool>
    ensures { result ≡ flag_at text.now }
{
    if text == b"true".as_slice() {
        Some(true)
    } else if text == b"false".as_slice() {
        Some(false)
    } else {
        None
    }
}

fn action_of(text: &[u8]) -> Option<Action>
    ensures { result ≡ action_at text.now }
{
    if text == b"add".as_slice() {
        Some(Action::Add)
    } else if text == b"delete".as_slice() {
        Some(Action::Delete)
    } else if text == b"replace".as_slice() {
        Some(Action::Replace)
    } else if text == b"modify".as_slice() {
        Some(Action::Modify)
    } else {
        None
    }
}

fn kind_of(text: &[u8]) -> Option<Kind>
    ensures { result ≡ kind_at text.now }
{
    if text == b"file".as_slice() {
        Some(Kind::File)
    } else if text == b"dir".as_slice() {
        Some(Kind::Dir)
    } else {
        None
    }
}

/// The action, and the kind where the text has one.
#[tactic(auto, unfolding(crate::specs::Changes::Reading::action_and_kind_at))]
pub(crate) fn action_and_kind_of(text: &[u8]) -> Option<(Action, Option<Kind>)>
    ensures { result ≡ action_and_kind_at text.now }
{
    match cut_at(b'-', text) {
        None => {
            let action = action_of(text)?;
            Some((action, None))
        }
        Some((front, rest)) => {
            let action = action_of(front)?;
            let kind = kind_of(rest)?;
            Some((action, Some(kind)))
        }
    }
}

/// Whether an item may have these flags: a delete changes neither text nor properties.
pub(crate) fn flags_fit(action: Action, text_changed: bool, props_changed: bool) -> bool
    ensures { result ≡ flags_fit action text_changed props_changed }
{
    match action {
        Action::Delete => !text_changed && !props_changed,
        Action::Add | Action::Replace | Action::Modify => true,
    }
}
