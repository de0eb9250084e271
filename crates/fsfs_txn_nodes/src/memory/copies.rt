//! Copies of what a transaction keeps of a node-revision.
ghost use Rattle.std.specs.Prelude.{◌≡◌, IfOk, option_map};
ghost use Rattle.fsfs_dag.specs.Listing.Views.{listed};
ghost use Rattle.fsfs_draft.specs.Views.{kept_value};

use fsfs_base::Pairs;
use fsfs_dag::Listing;
use fsfs_draft::KeptNode;
use fsfs_noderev::{CopyRoot, NodeRev, same_source};
use std::alloc::AllocError;

fn same_root(root: &Option<CopyRoot>) -> Result<Option<CopyRoot>, AllocError>
    ensures { IfOk result (λ same. same ≡ root.now) }
{
    match root {
        None => Ok(None),
        Some(root) => Ok(Some(CopyRoot {
            rev: root.rev,
            path: root.path.clone()?,
        })),
    }
}

/// A copy of a node-revision.
pub(crate) fn same_node(node: &NodeRev) -> Result<NodeRev, AllocError>
    ensures { IfOk result (λ same. same ≡ node.now) }
{
    let created_path = node.created_path.clone()?;
    let copy_from = same_source(&node.copy_from)?;
    let copy_root = same_root(&node.copy_root)?;
    Ok(NodeRev {
        id: node.id,
        kind: node.kind,
        predecessor: node.predecessor,
        count: node.count,
        text: node.text,
        props: node.props,
        created_path,
        copy_from,
        copy_root,
        is_fresh_txn_root: node.is_fresh_txn_root,
        mergeinfo_count: node.mergeinfo_count,
        has_mergeinfo: node.has_mergeinfo,
    })
}

// The same entries. Nothing is copied.
fn same_list(entries: &Option<Listing>) -> Result<Option<Listing>, AllocError>
    ensures { IfOk result (λ same. option_map listed same ≡ option_map listed entries.now) }
{
    match entries {
        None => Ok(None),
        Some(entries) => {
            let same = entries.shared()?;
            Ok(Some(same))
        }
    }
}

/// A copy of a list of properties, if there is one.
pub(crate) fn same_props(props: &Option<Pairs>) -> Result<Option<Pairs>, AllocError>
    ensures { IfOk result (λ same. same ≡ props.now) }
{
    match props {
        None => Ok(None),
        Some(pairs) => {
            let same = pairs.clone()?;
            Ok(Some(same))
        }
    }
}

/// All that is kept of a node-revision. Its list of entries is not copied.
pub(crate) fn same_kept(kept: &KeptNode) -> Result<KeptNode, AllocError>
    ensures { IfOk result (λ same. kept_value same ≡ kept_value kept.now) }
{
    let node = same_node(&kept.node)?;
    let entries = same_list(&kept.entries)?;
    let props = same_props(&kept.props)?;
    Ok(KeptNode {
        node,
        entries,
        props,
    })
}
