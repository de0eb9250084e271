//! The root of a revision.
ghost use Rattle.std.specs.Prelude.{◌≡◌, ◌≤◌, ◌+◌, ◌-◌, ◌^◌, ◌<◌, ℕ, length, drop};
ghost use Rattle.fsfs_revision.specs.Damage.Causes.{IsQuiet};
ghost use Rattle.fsfs_revision.specs.Damage.Readings.{Answers};
ghost use Rattle.fsfs_revision.specs.Nodes.{is_own_place as own_place};
ghost use Rattle.fsfs_revision.specs.Damages.{AsRoot, RootIn};

use crate::node::read_node_at;
use crate::trailer::read_trailer;
use crate::{DamageKind, ReadError, RevOffset};
use fsfs_base::{Kind, RevNum};
use fsfs_noderev::{NodeId, NodeRev, Place};
use std::alloc::Global;

fn is_own_place(at: &RevOffset, id: &NodeId) -> bool
    ensures { result ≡ own_place at.now id.now.place }
{
    match id.place {
        Place::At(rev, offset) => rev == at.rev && offset == at.offset,
        Place::In(_) => false,
    }
}

/// The node-revision at a place as a revision's root: the place of its id is its own, else it is OtherId, and it is a
/// directory, else EntryKind.
pub fn as_root(at: &RevOffset, node: NodeRev) -> Result<NodeRev, ReadError>
    ensures read { Answers (λ v. v) (AsRoot at.now node) result }
    ensures quiet { IsQuiet result }
{
    if !is_own_place(at, &node.id) {
        return Err(ReadError::damaged(*at, DamageKind::OtherId));
    }
    match node.kind {
        Kind::File => Err(ReadError::damaged(*at, DamageKind::EntryKind)),
        Kind::Dir => Ok(node),
    }
}

// The bytes from an offset on.
fn bytes_from(offset: u64, bytes: &[u8]) -> &[u8]
    ensures { result.now ≡ drop offset bytes.now }
{
    if offset >= bytes.len() as u64 {
        return &bytes[bytes.len()..];
    }
    &bytes[offset as usize..]
}

/// The node-revision of the root of a revision, of all its bytes: the one that the trailer names. Trailer, NodeRev,
/// PlaceOrder, OtherId and EntryKind are tried in this order.
pub fn read_root(alloc: Global, rev: RevNum, bytes: &[u8]) -> Result<NodeRev, ReadError>
    ensures read { Answers (λ v. v) (RootIn rev bytes.now) result }
    ensures quiet { IsQuiet result }
{
    let Some(trailer) = read_trailer(bytes) else {
        let end = RevOffset {
            rev,
            offset: bytes.len() as u64,
        };
        return Err(ReadError::damaged(end, DamageKind::Trailer));
    };
    let at = RevOffset {
        rev,
        offset: trailer.root,
    };
    let node = read_node_at(alloc, &at, bytes_from(trailer.root, bytes))?;
    as_root(&at, node)
}
