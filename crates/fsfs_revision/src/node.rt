//! A node-revision that stands in a revision.
ghost use Rattle.std.specs.Prelude.{◌≡◌, true, IfOk};
ghost use Rattle.fsfs_revision.specs.Nodes.{is_lasting_part, is_revision_place, is_revision_id, is_some_rev, has_revision_pred, has_revision_rep, has_revision_root, is_of_revision, is_before as before, place_before, pred_before, rep_place_before, rep_before, source_before, rev_not_after, root_not_after, is_ordered};
ghost use Rattle.fsfs_revision.specs.Damage.Causes.{IsQuiet};
ghost use Rattle.fsfs_revision.specs.Shows.Chains.{own_rev};
ghost use Rattle.fsfs_revision.specs.Damage.Readings.{Answers};
ghost use Rattle.fsfs_revision.specs.Damages.{NodeIn};

use crate::{DamageKind, ReadError, RevOffset};
use fsfs_base::RevNum;
use fsfs_noderev::{
    Contents, CopyRoot, CopySource, Fields, NodeError, NodeId, NodeRev, Part, Place, read_fields,
};
use std::alloc::Global;

fn is_lasting(part: Part) -> bool
    ensures { result ≡ is_lasting_part part }
{
    match part {
        Part::New(_) => false,
        Part::Old(_) | Part::Made(_, _) => true,
    }
}

/// The revision that a node-revision is of.
pub fn own_rev(node: &NodeRev) -> RevNum
    ensures { result ≡ own_rev node.now }
{
    match &node.id.place {
        Place::At(rev, _) => *rev,
        Place::In(_) => RevNum::ZERO,
    }
}

/// Whether an id has no form that only a transaction has.
pub fn is_revision_id(id: &NodeId) -> bool
    ensures { result ≡ is_revision_id id.now }
{
    match id.place {
        Place::At(_, _) => is_lasting(id.node) && is_lasting(id.copy),
        Place::In(_) => false,
    }
}

fn has_revision_pred(pred: &Option<NodeId>) -> bool
    ensures { result ≡ has_revision_pred pred.now }
{
    match pred {
        None => true,
        Some(id) => is_revision_id(id),
    }
}

fn has_revision_rep(contents: &Option<Contents>) -> bool
    ensures { result ≡ has_revision_rep contents.now }
{
    match contents {
        None => true,
        Some(Contents::Own) => false,
        Some(Contents::At(rep)) => rep.rev.is_some(),
    }
}

fn has_revision_root(root: &Option<CopyRoot>) -> bool
    ensures { result ≡ has_revision_root root.now }
{
    match root {
        None => true,
        Some(root) => root.rev.is_some(),
    }
}

// Whether it has no form that only a transaction has.
fn is_of_revision(node: &NodeRev) -> bool
    ensures { result ≡ is_of_revision node.now }
{
    is_revision_id(&node.id)
        && has_revision_pred(&node.predecessor)
        && has_revision_rep(&node.text)
        && has_revision_rep(&node.props)
        && has_revision_root(&node.copy_root)
        && !node.is_fresh_txn_root
}

/// Whether a place of a revision comes before another: by the revision, then by the offset.
pub fn is_before(rev: RevNum, offset: u64, at: &RevOffset) -> bool
    ensures { result ≡ before rev offset at.now }
{
    rev < at.rev || (rev == at.rev && offset < at.offset)
}

fn pred_before(at: &RevOffset, pred: &Option<NodeId>) -> bool
    ensures { result ≡ pred_before at.now pred.now }
{
    match pred {
        None => true,
        Some(id) => match id.place {
            Place::At(rev, offset) => is_before(rev, offset, at),
            Place::In(_) => false,
        },
    }
}

fn rep_before(at: &RevOffset, contents: &Option<Contents>) -> bool
    ensures { result ≡ rep_before at.now contents.now }
{
    match contents {
        None => true,
        Some(Contents::Own) => false,
        Some(Contents::At(rep)) => match rep.rev {
            None => false,
            Some(rev) => is_before(rev, rep.offset, at),
        },
    }
}

fn source_before(at: &RevOffset, source: &Option<CopySource>) -> bool
    ensures { result ≡ source_before at.now source.now }
{
    match source {
        None => true,
        Some(source) => source.rev < at.rev,
    }
}

fn root_not_after(at: &RevOffset, root: &Option<CopyRoot>) -> bool
    ensures { result ≡ root_not_after at.now root.now }
{
    match root {
        None => true,
        Some(root) => match root.rev {
            None => false,
            Some(rev) => rev <= at.rev,
        },
    }
}

// Whether what it names stands before it.
fn is_ordered(at: &RevOffset, node: &NodeRev) -> bool
    ensures { result ≡ is_ordered at.now node.now }
{
    pred_before(at, &node.predecessor)
        && rep_before(at, &node.text)
        && rep_before(at, &node.props)
        && source_before(at, &node.copy_from)
        && root_not_after(at, &node.copy_root)
}

/// The node-revision that stands at a place of a revision, of the bytes from that place on; 65,536 of them are enough.
/// It is NodeRev where none begins there, or one in a form that only a transaction has, and PlaceOrder where its predecessor
/// or a representation isn't before it, its source isn't of an earlier revision, or its copy root is of a later one.
pub fn read_node_at(alloc: Global, at: &RevOffset, bytes: &[u8]) -> Result<NodeRev, ReadError>
    ensures read { Answers (λ v. v) (NodeIn at.now bytes.now) result }
    ensures ordered { IfOk result (λ v. is_ordered at.now v ≡ true) }
    ensures quiet { IsQuiet result }
{
    let mut fields = Fields::new();
    match read_fields(alloc, bytes, &mut fields) {
        Ok(()) => {}
        Err(NodeError::OutOfMemory) => return Err(ReadError::OutOfMemory),
        Err(NodeError::Fault(_)) => return Err(ReadError::damaged(*at, DamageKind::NodeRev)),
    }
    let node = fields.take_node();
    if !is_of_revision(&node) {
        return Err(ReadError::damaged(*at, DamageKind::NodeRev));
    }
    if !is_ordered(at, &node) {
        return Err(ReadError::damaged(*at, DamageKind::PlaceOrder));
    }
    Ok(node)
}
