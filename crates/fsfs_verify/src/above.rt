//! The directories above a node-revision.
ghost use Rattle.std.specs.Prelude.{◌≡◌};
ghost use Rattle.fsfs_base.specs.declared.kind.Kind.TheVariants.{Dir};

use fsfs_dag::PlacedNode;
use fsfs_history::EntriesByName;

/// A new directory on the way down, and the entries of its predecessor.
#[derive(Drop)]
pub(crate) struct Above {
    pub(crate) dir: PlacedNode,
    pub(crate) ghost is_dir: { dir.node.kind ≡ Dir },
    pub(crate) before: EntriesByName,
}
