//! What was opened, as the transaction's own.
ghost use Rattle.std.specs.Prelude.{◌≡◌, OnOk, option_map};
ghost use Rattle.fsfs_draft.specs.Steps.{kept_at};
ghost use Rattle.fsfs_draft.specs.Causes.{HasBenchCause};
ghost use Rattle.fsfs_txn.specs.Opened.Reached.{ReachesTo, ReachesKnown, ReachesStill};

use crate::opened::opening::Way;
use crate::opened::reaching::reach;
use fsfs_base::Kind;
use fsfs_draft::{EditError, Own, root_id};
use fsfs_noderev::NodeId;
use std::alloc::Global;

/// Makes all that stands on the way, and what stands at its end, the transaction's own, and answers its id. No book is read.
pub(crate) fn reached<N: Own>(alloc: Global, own: &mut N, way: &Way) -> Result<NodeId, EditError>
    ensures opens { ReachesTo (N.txn own.old) (N.folder own.old) (N.folder own.new) way.now.known.items way.now.path result }
    ensures leads { ReachesKnown (N.txn own.old) (N.folder own.old) (N.folder own.new) way.now result }
    ensures still { ReachesStill (N.txn own.old) (N.folder own.old) (N.folder own.new) way.now result }
    ensures proto { OnOk result ((N.folder own.new).proto ≡ (N.folder own.old).proto) }
    ensures settled { N.settled own.new ≡ N.settled own.old }
    ensures name { N.txn own.new ≡ N.txn own.old }
    ensures bench { HasBenchCause (N.faults own.old) (N.faults own.new) result }
{
    let root = root_id(own.name());
    reach(alloc, own, way.known.as_slice(), &root, &way.path)
}

/// The kind of an own node-revision.
pub(crate) fn kind_of<N: Own>(own: &N, id: &NodeId) -> Option<Kind>
    ensures { result ≡ option_map (λ k. k.node.kind) (kept_at (N.folder own.now).nodes id.now) }
{
    match own.kept(id) {
        None => None,
        Some(kept) => Some(kept.node.kind),
    }
}
