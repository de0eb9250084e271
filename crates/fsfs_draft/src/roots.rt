//! The copy root that a node-revision of a revision hands on.
ghost use Rattle.std.specs.Prelude.{◌≡◌, IfOk};
ghost use Rattle.fsfs_draft.specs.Rules.{lasting_root};
ghost use Rattle.fsfs_draft.specs.Views.{root_value};

use fsfs_base::RevNum;
use fsfs_noderev::{CopyRoot, NodeRev};
use fsfs_revision::own_rev;
use std::alloc::AllocError;

/// The copy root of a node-revision of a revision.
pub fn lasting_root(node: &NodeRev) -> Result<CopyRoot, AllocError>
    ensures { IfOk result (λ r. root_value r ≡ lasting_root node.now) }
{
    match &node.copy_root {
        None => Ok(CopyRoot {
            rev: Some(own_rev(node)),
            path: node.created_path.clone()?,
        }),
        Some(root) => Ok(CopyRoot {
            rev: Some(root.rev.unwrap_or(RevNum::ZERO)),
            path: root.path.clone()?,
        }),
    }
}
