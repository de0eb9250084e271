//! Node-revisions and changed paths, all of whose paths are within their limits.
ghost use Rattle.std.specs.Prelude.{◌≡◌, OnOk, IfErr};
ghost use Rattle.fsfs_base.specs.PathTexts.{IsPath};
ghost use Rattle.fsfs_noderev.specs.Writing.{HasText, FitsSource, FitsRoot};
ghost use Rattle.fsfs_noderev.specs.Limits.{IfPast, IsSourcePast, IsRootPast, IsNodePast, IsItemPast, HasPaths, is_told};

use crate::limits::limit::{LimitError, check_path};
use crate::{ChangeItem, CopyRoot, CopySource, NodeRev};
use fsfs_base::Action;
use std::alloc::Global;

fn check_source(alloc: Global, source: &Option<CopySource>) -> Result<(), LimitError>
    ensures within { OnOk result (FitsSource source.now) }
    ensures past { IfErr result (IfPast (λ limit. IsSourcePast limit source.now)) }
{
    match source {
        None => Ok(()),
        Some(source) => check_path(alloc, &source.path),
    }
}

fn check_root(alloc: Global, root: &Option<CopyRoot>) -> Result<(), LimitError>
    ensures within { OnOk result (FitsRoot root.now) }
    ensures past { IfErr result (IfPast (λ limit. IsRootPast limit root.now)) }
{
    match root {
        None => Ok(()),
        Some(root) => check_path(alloc, &root.path),
    }
}

/// Whether the paths of a node-revision are within their limits: that at which it was made, that which it was copied from, and that
/// of its copy root. Then it has a text.
pub fn check_node(alloc: Global, node: &NodeRev) -> Result<(), LimitError>
    ensures within { OnOk result (HasText node.now) }
    ensures past { IfErr result (IfPast (λ limit. IsNodePast limit node.now)) }
{
    check_path(alloc, &node.created_path)?;
    check_source(alloc, &node.copy_from)?;
    check_root(alloc, &node.copy_root)?;
    Ok(())
}

/// Whether the paths of an item of changed paths are within their limits: its own, and that which it was copied from.
pub fn check_item(alloc: Global, item: &ChangeItem) -> Result<(), LimitError>
    ensures within { OnOk result (HasPaths item.now) }
    ensures past { IfErr result (IfPast (λ limit. IsItemPast limit item.now)) }
{
    check_path(alloc, &item.path)?;
    check_source(alloc, &item.source)?;
    Ok(())
}

/// Whether an item tells its kind, and is no delete with a flag. Then it has a text, where its paths are within their limits.
pub fn is_told(item: &ChangeItem) -> bool
    ensures { result ≡ is_told item.now }
{
    match item.action {
        Action::Delete => item.kind.is_some() && !item.text_changed && !item.props_changed,
        Action::Add => item.kind.is_some(),
        Action::Replace => item.kind.is_some(),
        Action::Modify => item.kind.is_some(),
    }
}
