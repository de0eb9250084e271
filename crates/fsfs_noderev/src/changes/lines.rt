//! The two lines of an item.
ghost use Rattle.std.specs.Prelude.{◌≡◌, option_map};
ghost use Rattle.fsfs_noderev.specs.Ids.{id_value, id_at};
ghost use Rattle.fsfs_noderev.specs.Changes.Reading.{head_value, head_at, lines_at, item_value, item_at};

use crate::changes::words::{action_and_kind_of, flag_of, flags_fit};
use crate::{NodeId, read_id};
use fsfs_base::cuts::cut_at;
use fsfs_base::{Action, Kind};

/// The fields of an item's first line, its path as text.
#[derive(Clone, Copy)]
pub(crate) struct Head<'a> {
    pub(crate) id: NodeId,
    pub(crate) action: Action,
    pub(crate) kind: Option<Kind>,
    pub(crate) text_changed: bool,
    pub(crate) props_changed: bool,
    pub(crate) path: &'a [u8],
}

/// An item with its paths as text: the first line's fields, the second line, and the bytes behind it.
#[derive(Clone, Copy)]
pub(crate) struct ItemText<'a> {
    pub(crate) head: Head<'a>,
    pub(crate) source: &'a [u8],
    pub(crate) rest: &'a [u8],
}

fn id_of(text: &[u8]) -> Option<NodeId>
    ensures { option_map id_value result ≡ id_at text.now }
{
    read_id(text)
}

#[tactic(auto, unfolding(crate::specs::Changes::Reading::head_at))]
fn head_of(line: &[u8]) -> Option<Head<'_>>
    ensures { option_map head_value result ≡ head_at line.now }
{
    let (front, rest) = cut_at(b' ', line)?;
    let id = id_of(front)?;
    let (front, rest) = cut_at(b' ', rest)?;
    let (action, kind) = action_and_kind_of(front)?;
    let (front, rest) = cut_at(b' ', rest)?;
    let text_changed = flag_of(front)?;
    let (front, path) = cut_at(b' ', rest)?;
    let props_changed = flag_of(front)?;
    Some(Head {
        id,
        action,
        kind,
        text_changed,
        props_changed,
        path,
    })
}

/// The bytes' first two lines without their ends, and the bytes behind them.
fn lines_of(bytes: &[u8]) -> Option<(&[u8], (&[u8], &[u8]))>
    ensures { option_map (λ p. (p.0.now, (p.1.0.now, p.1.1.now))) result ≡ lines_at bytes.now }
{
    let (first, rest) = cut_at(b'\n', bytes)?;
    let (second, rest) = cut_at(b'\n', rest)?;
    Some((first, (second, rest)))
}

/// The item that the bytes begin with, but for the forms of its paths.
#[tactic(auto, unfolding(crate::specs::Changes::Reading::item_at))]
pub(crate) fn item_text(bytes: &[u8]) -> Option<ItemText<'_>>
    ensures { option_map item_value result ≡ item_at bytes.now }
{
    let (first, (source, rest)) = lines_of(bytes)?;
    match head_of(first) {
        Some(head) if flags_fit(head.action, head.text_changed, head.props_changed) => {
            Some(ItemText { head, source, rest })
        }
        _ => None,
    }
}
