//! The changed paths and the trailer.
ghost use Rattle.std.specs.Prelude.{◌≡◌, ◌<◌, ◌+◌, [], All, OnOk, length};
ghost use Rattle.fsfs_noderev.specs.Changes.Items.{HasText};
ghost use Rattle.fsfs_noderev.specs.Changes.Texts.{HavePathsOnce};
ghost use Rattle.fsfs_final.specs.Pieces.Endings.{IsEndPut};

use crate::pieces::offsets::end_at;
use fsfs_base::decimals::put_decimal;
use fsfs_noderev::{ChangeItem, write_changes};
use std::alloc::{AllocError, Global};

/// Puts the changed paths of the revision and its trailer at the end: where its root's node-revision begins, and where these
/// changed paths do. The buffer begins at the offset `start` of the revision.
///
/// An `Err` is for an offset that there is no number for, too.
pub fn put_end(
    alloc: Global,
    out: &mut Vec<u8>,
    start: u64,
    root: u64,
    items: &[ChangeItem],
) -> Result<(), AllocError>
    requires text { All HasText items.now }
    requires once { HavePathsOnce [] items.now }
    ensures { OnOk result (IsEndPut start out.old.items out.new.items root items.now) }
{
    let changes = end_at(start, out.len())?;
    let text = write_changes(alloc, items)?;
    out.extend_from_slice(&text)?;
    out.push(b'\n')?;
    put_decimal(out, root, b' ')?;
    put_decimal(out, changes, b'\n')?;
    Ok(())
}
