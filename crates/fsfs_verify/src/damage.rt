//! What is wrong with a node-revision, at its place.
ghost use Rattle.std.specs.Prelude.{◌≡◌};
ghost use Rattle.fsfs_revision.specs.declared.damage.DamageKind.TheVariants.{PredId, CopyId};
ghost use Rattle.fsfs_revision.specs.declared.wrong.ReadError.TheVariants.{Wrong};
ghost use Rattle.fsfs_revision.specs.Damage.Damages.{damaged};
ghost use Rattle.fsfs_dag.specs.Views.{home_of};

use fsfs_dag::PlacedNode;
use fsfs_revision::{DamageKind, ReadError};

/// It breaks one of the rules by which node-revisions hang together.
pub(crate) fn breaks_rule(node: &PlacedNode) -> ReadError
    ensures { result ≡ Wrong (damaged (home_of node.now.node) CopyId) }
{
    ReadError::damaged(node.place(), DamageKind::CopyId)
}

/// It doesn't go on from its predecessor.
pub(crate) fn breaks_off(node: &PlacedNode) -> ReadError
    ensures { result ≡ Wrong (damaged (home_of node.now.node) PredId) }
{
    ReadError::damaged(node.place(), DamageKind::PredId)
}
