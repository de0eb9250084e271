//! The items of the `changes` file that edits leave.
ghost use Rattle.std.specs.Prelude.{IfOk, ◌++◌, ◌∷◌, []};
ghost use Rattle.fsfs_edit.specs.Items.{IsAddOf, IsDeleteOf, IsModifyOf};

use fsfs_base::{Action, FsPath, Kind};
use fsfs_noderev::{ChangeItem, CopySource, NodeId};
use std::alloc::{AllocError, Global};

/// The item of a node that was put under a name of a directory.
pub(crate) fn added(
    alloc: Global,
    id: NodeId,
    kind: Kind,
    parent: &FsPath,
    name: &str,
    source: Option<CopySource>,
) -> Result<ChangeItem, AllocError>
    ensures { IfOk result (λ item. IsAddOf item id kind (parent.now ++ name.now ∷ []) source) }
{
    let path = parent.child(alloc, name)?;
    Ok(ChangeItem {
        id,
        action: Action::Add,
        kind: Some(kind),
        text_changed: false,
        props_changed: false,
        path,
        source,
    })
}

/// The item of a node that was taken away.
pub(crate) fn deleted(
    alloc: Global,
    id: NodeId,
    kind: Kind,
    parent: &FsPath,
    name: &str,
) -> Result<ChangeItem, AllocError>
    ensures { IfOk result (λ item. IsDeleteOf item id kind (parent.now ++ name.now ∷ [])) }
{
    let path = parent.child(alloc, name)?;
    Ok(ChangeItem {
        id,
        action: Action::Delete,
        kind: Some(kind),
        text_changed: false,
        props_changed: false,
        path,
        source: None,
    })
}

/// The item of a node whose text or properties were set.
pub fn modified(
    id: NodeId,
    kind: Kind,
    path: &FsPath,
    text_changed: bool,
    props_changed: bool,
) -> Result<ChangeItem, AllocError>
    ensures { IfOk result (λ item. IsModifyOf item id kind path.now text_changed props_changed) }
{
    let path = path.clone()?;
    Ok(ChangeItem {
        id,
        action: Action::Modify,
        kind: Some(kind),
        text_changed,
        props_changed,
        path,
        source: None,
    })
}
