//! Whether two node-revisions are the same.
ghost use Rattle.std.specs.Prelude.{◌≡◌, ◌↔◌, IsTrue};

use fsfs_base::{FsPath, Kind};
use fsfs_dag::same_id;
use fsfs_noderev::{Contents, CopyRoot, CopySource, NodeId, NodeRev};

fn same_node_id(a: &NodeId, b: &NodeId) -> bool
    ensures { IsTrue result ↔ (a.now ≡ b.now) }
{
    same_id(a, b)
}

fn same_predecessor(a: &Option<NodeId>, b: &Option<NodeId>) -> bool
    ensures { IsTrue result ↔ (a.now ≡ b.now) }
{
    match a {
        None => b.is_none(),
        Some(a) => match b {
            None => false,
            Some(b) => same_node_id(a, b),
        },
    }
}

fn same_kind(a: Kind, b: Kind) -> bool
    ensures { IsTrue result ↔ (a ≡ b) }
{
    a == b
}

fn same_contents(a: &Option<Contents>, b: &Option<Contents>) -> bool
    ensures { IsTrue result ↔ (a.now ≡ b.now) }
{
    a == b
}

fn same_path(a: &FsPath, b: &FsPath) -> bool
    ensures { IsTrue result ↔ (a.now ≡ b.now) }
{
    a == b
}

fn same_source(a: &Option<CopySource>, b: &Option<CopySource>) -> bool
    ensures { IsTrue result ↔ (a.now ≡ b.now) }
{
    match a {
        None => b.is_none(),
        Some(a) => match b {
            None => false,
            Some(b) => (a.rev == b.rev) & same_path(&a.path, &b.path),
        },
    }
}

fn same_root(a: &Option<CopyRoot>, b: &Option<CopyRoot>) -> bool
    ensures { IsTrue result ↔ (a.now ≡ b.now) }
{
    match a {
        None => b.is_none(),
        Some(a) => match b {
            None => false,
            Some(b) => (a.rev == b.rev) & same_path(&a.path, &b.path),
        },
    }
}

fn same_counts(a: &NodeRev, b: &NodeRev) -> bool
    ensures { IsTrue result ↔ (a.now.count ≡ b.now.count × a.now.mergeinfo_count ≡ b.now.mergeinfo_count) }
{
    (a.count == b.count) & (a.mergeinfo_count == b.mergeinfo_count)
}

fn same_flags(a: &NodeRev, b: &NodeRev) -> bool
    ensures { IsTrue result ↔ (a.now.is_fresh_txn_root ≡ b.now.is_fresh_txn_root × a.now.has_mergeinfo ≡ b.now.has_mergeinfo) }
{
    (a.is_fresh_txn_root == b.is_fresh_txn_root) & (a.has_mergeinfo == b.has_mergeinfo)
}

/// Whether two node-revisions are the same. It tests without a branch, since mostly they are.
pub(crate) fn same_noderev(a: &NodeRev, b: &NodeRev) -> bool
    ensures { IsTrue result ↔ (a.now ≡ b.now) }
{
    same_node_id(&a.id, &b.id)
        & same_kind(a.kind, b.kind)
        & same_predecessor(&a.predecessor, &b.predecessor)
        & same_counts(a, b)
        & same_contents(&a.text, &b.text)
        & same_contents(&a.props, &b.props)
        & same_path(&a.created_path, &b.created_path)
        & same_source(&a.copy_from, &b.copy_from)
        & same_root(&a.copy_root, &b.copy_root)
        & same_flags(a, b)
}
