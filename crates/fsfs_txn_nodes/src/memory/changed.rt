//! What is kept of a node-revision, with one part of it changed.
ghost use Rattle.std.specs.Prelude.{◌≡◌, IfOk};
ghost use Rattle.fsfs_dag.specs.Listing.Views.{listed};
ghost use Rattle.fsfs_draft.specs.Views.{kept_value, new_kept, opened_kept, text_kept, props_kept};
ghost use Rattle.fsfs_txn_nodes.specs.Memory.Merged.{IsRelinkedKept};

use crate::memory::copies::{same_kept, same_node, same_props};
use fsfs_base::Pairs;
use fsfs_dag::Listing;
use fsfs_draft::KeptNode;
use fsfs_merge::MergedDir;
use fsfs_noderev::{Contents, NodeId, NodeRev, Rep};
use std::alloc::{AllocError, Global};

/// A node-revision that has no file yet.
pub(crate) fn new_node(node: NodeRev) -> KeptNode
    ensures value { kept_value result ≡ new_kept node }
    ensures node { result.node ≡ node }
{
    KeptNode {
        node,
        entries: None,
        props: None,
    }
}

/// With these entries in a `children` file of its own.
pub(crate) fn with_entries(kept: &KeptNode, entries: Listing) -> Result<KeptNode, AllocError>
    ensures { IfOk result (λ k. kept_value k ≡ opened_kept (kept_value kept.now) (listed entries)) }
{
    let mut node = same_node(&kept.node)?;
    let props = same_props(&kept.props)?;
    node.text = Some(Contents::Own);
    node.is_fresh_txn_root = false;
    Ok(KeptNode {
        node,
        entries: Some(entries),
        props,
    })
}

/// With another text, a representation.
pub(crate) fn with_text(kept: &KeptNode, rep: &Rep) -> Result<KeptNode, AllocError>
    ensures { IfOk result (λ k. kept_value k ≡ text_kept (kept_value kept.now) rep.now) }
{
    let mut changed = same_kept(kept)?;
    changed.node.text = Some(Contents::At(*rep));
    Ok(changed)
}

/// With these properties in a `props` file of its own.
pub(crate) fn with_props(kept: &KeptNode, props: Pairs) -> Result<KeptNode, AllocError>
    ensures { IfOk result (λ k. kept_value k ≡ props_kept (kept_value kept.now) props) }
{
    let mut changed = same_kept(kept)?;
    changed.node.props = Some(Contents::Own);
    changed.node.is_fresh_txn_root = false;
    changed.props = Some(props);
    Ok(changed)
}

/// The id of a merged directory.
pub(crate) fn merged_id(dir: &MergedDir) -> NodeId
    ensures { result ≡ dir.now.link.own }
{
    dir.link.own
}

/// Gone on from the head's node-revision, with the entries that a merge found.
pub(crate) fn relinked(
    alloc: Global,
    kept: &KeptNode,
    dir: MergedDir,
) -> Result<KeptNode, AllocError>
    ensures { IfOk result (λ k. IsRelinkedKept dir (kept_value kept.now) (kept_value k)) }
{
    let mut node = same_node(&kept.node)?;
    let props = same_props(&kept.props)?;
    let MergedDir { link, entries } = dir;
    let entries = Listing::of(alloc, entries)?;
    node.predecessor = Some(link.head);
    node.count = link.count;
    node.text = Some(Contents::Own);
    node.is_fresh_txn_root = false;
    Ok(KeptNode {
        node,
        entries: Some(entries),
        props,
    })
}
