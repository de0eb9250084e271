//! What a merge asks of node-revisions.
ghost use Rattle.std.specs.Prelude.{◌≡◌, ◌&&◌};
ghost use Rattle.fsfs_model.specs.Flat.Edits.{is_dir};
ghost use Rattle.fsfs_revision.specs.Shows.Chains.{copy_root_of};
ghost use Rattle.fsfs_draft.specs.OwnSides.{in_txn, is_own_copy};
ghost use Rattle.fsfs_merge.specs.Clash.Sights.{facts_of, go_with, have_props_of, merge_with};

use crate::clash::same::same_contents;
use fsfs_base::{Kind, RevNum};
use fsfs_dag::same_part;
use fsfs_noderev::{Contents, NodeRev, Part, Place};
use fsfs_revision::own_rev;

pub(crate) fn is_dir(kind: Kind) -> bool
    ensures { result ≡ is_dir kind }
{
    match kind {
        Kind::File => false,
        Kind::Dir => true,
    }
}

pub(crate) fn in_txn(place: &Place) -> bool
    ensures { result ≡ in_txn place.now }
{
    match place {
        Place::At(_, _) => false,
        Place::In(_) => true,
    }
}

// The copy root is of the transaction.
fn is_own_copy(node: &NodeRev) -> bool
    ensures { result ≡ is_own_copy node.now }
{
    match &node.copy_root {
        None => in_txn(&node.id.place),
        Some(root) => root.rev.is_none(),
    }
}

// The revision of a node-revision's copy root.
fn root_rev(node: &NodeRev) -> RevNum
    ensures { result ≡ (copy_root_of node.now).0 }
{
    match &node.copy_root {
        None => own_rev(node),
        Some(root) => root.rev.unwrap_or(RevNum::ZERO),
    }
}

/// What a merge asks of the transaction's node-revision.
#[derive(Clone, Copy)]
pub(crate) struct Facts {
    pub kind: Kind,
    pub node: Part,
    /// Its copy root is of the transaction.
    pub is_copy: bool,
    pub props: Option<Contents>,
}

pub(crate) fn facts_of(node: &NodeRev) -> Facts
    ensures { result ≡ facts_of node.now }
{
    Facts {
        kind: node.kind,
        node: node.id.node,
        is_copy: is_own_copy(node),
        props: node.props,
    }
}

fn are_dirs(base: &NodeRev, head: &NodeRev, own: &Facts) -> bool
    ensures { result ≡ (is_dir base.now.kind && is_dir head.now.kind && is_dir own.now.kind) }
{
    is_dir(base.kind) && is_dir(head.kind) && is_dir(own.kind)
}

// Both sides go on from the base's directory.
fn go_on(rev: RevNum, base: &NodeRev, head: &NodeRev, own: &Facts) -> bool
    ensures { result ≡ go_with rev base.now head.now own.now }
{
    are_dirs(base, head, own)
        && same_part(base.id.node, head.id.node)
        && same_part(base.id.node, own.node)
        && root_rev(head).get() <= rev.get()
        && !own.is_copy
}

fn have_same_props(base: &NodeRev, head: &NodeRev, own: &Facts) -> bool
    ensures { result ≡ have_props_of base.now head.now own.now }
{
    same_contents(&base.props, &head.props) && same_contents(&base.props, &own.props)
}

/// Whether the merge goes below three directories.
pub(crate) fn are_merged(rev: RevNum, base: &NodeRev, head: &NodeRev, own: &Facts) -> bool
    ensures { result ≡ merge_with rev base.now head.now own.now }
{
    go_on(rev, base, head, own) && have_same_props(base, head, own)
}
