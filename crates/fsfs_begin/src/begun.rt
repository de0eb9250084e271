//! A transaction that has begun, as edits are made in it.
ghost use Rattle.std.specs.Prelude.{◌≡◌, IfOk, IfErr, codes};
ghost use Rattle.fsfs_txn_nodes.specs.Memory.Views.{begun_folder};
ghost use Rattle.fsfs_begin.specs.Benches.{TellsRoot};

use fsfs_base::TxnName;
use fsfs_disk::Bench;
use fsfs_draft::Own;
use fsfs_noderev::NodeRev;
use fsfs_txn_nodes::HeldNodes;
use std::alloc::Global;

/// A transaction that has just begun, on the revision that its name has. It stands for that revision's tree, and has no marks.
#[derive(Drop)]
pub struct Begun<B: Bench> {
    pub name: TxnName,
    /// Its root, whose text stands in its bench.
    pub root: NodeRev,
    pub bench: B,
}

impl<B: Bench> Begun<B> {
    /// Its own node-revisions, held in memory and written into its bench, whose file `rev` is its prototype revision file. An `Err`
    /// is for want of memory, and gives the bench back.
    pub fn hold(self, alloc: Global) -> Result<HeldNodes<B>, B>
        // As a beginning ensures.
        requires { TellsRoot self.root (B.contents self.bench) }
        ensures name { IfOk result (λ held. ⟦<HeldNodes<B> as Own>⟧.txn held ≡ self.name) }
        ensures folder { IfOk result (λ held. ⟦<HeldNodes<B> as Own>⟧.folder held ≡ begun_folder self.root (B.contents self.bench) (codes "rev")) }
        ensures settled { IfOk result (λ held. ⟦<HeldNodes<B> as Own>⟧.settled held ≡ begun_folder self.root (B.contents self.bench) (codes "rev")) }
        ensures faults { IfOk result (λ held. ⟦<HeldNodes<B> as Own>⟧.faults held ≡ B.faults self.bench) }
        ensures back { IfErr result (λ back. back ≡ self.bench) }
    {
        let Begun { name, root, bench } = self;
        HeldNodes::begin(alloc, name, root, bench)
    }
}
