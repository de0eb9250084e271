//! What a transaction has made itself: its own node-revisions, and the steps of the edit that is being made.
ghost use Rattle.std.specs.Prelude.{◌≡◌, ◌+◌, ℕ, None, Some, IfOk, IfErr, OnOk, IsSome, option_map};
ghost use Rattle.fsfs_base.specs.declared.fields.txn_name.TxnName.{TxnName};
ghost use Rattle.fsfs_draft.specs.Drafts.{Folder, Kept};
ghost use Rattle.fsfs_draft.specs.Steps.{kept_at};
ghost use Rattle.fsfs_draft.specs.Causes.{HasSettleCause};
ghost use Rattle.fsfs_draft.specs.Entries.{AreOwnEntries};
ghost use Rattle.fsfs_draft.specs.Errors.{IfMemory};
ghost use Rattle.fsfs_draft.specs.Items.{with_item};
ghost use Rattle.fsfs_draft.specs.Put.{IsEntryPut};
ghost use Rattle.fsfs_draft.specs.Taken.{IsEntryTaken};
ghost use Rattle.fsfs_draft.specs.Views.{kept_value, text_put, props_put};
ghost use Rattle.fsfs_dag.specs.Listing.Views.{listed};

use fsfs_base::{B36, Kind, Pairs, TxnName};
use fsfs_dag::Listing;
use fsfs_noderev::{ChangeItem, NodeId, NodeRev, Rep};
use std::alloc::AllocError;
use thiserror::Error;

/// The files of an own node-revision.
#[derive(Drop)]
pub struct KeptNode {
    pub node: NodeRev,
    /// The entries of its `children` file; none: it has no such file.
    pub entries: Option<Listing>,
    /// The pairs of its `props` file.
    pub props: Option<Pairs>,
}

/// The steps of an edit were not settled.
#[derive(Clone, Copy, Debug, Error)]
pub enum OwnError {
    /// Nothing was settled.
    #[error("out of memory")]
    OutOfMemory,
    /// A call of the bench failed, and its count of faults rose; nothing is known of its files.
    #[error("the bench failed")]
    BenchFault,
}

/// The own node-revisions of a transaction. An edit takes its steps in memory, and they count once `settle` has answered
/// `Ok`: so an edit that fails leaves nothing, whatever it had begun.
pub trait Own {
    /// What its folder holds with the steps taken since it was last settled.
    ghost folder: { Self → Folder };

    /// What its folder holds.
    ghost settled: { Self → Folder };

    /// Its name.
    ghost txn: { Self → TxnName };

    /// How often its bench has failed. The count stops at the last number of a u64.
    ghost faults: { Self → ℕ };

    fn name(&self) -> TxnName
        ensures { result ≡ txn self.now };

    /// An own node-revision, by the node part and the copy part of its id.
    fn kept(&self, id: &NodeId) -> Option<&KeptNode>
        ensures { option_map (λ k. kept_value k.now) result ≡ kept_at (folder self.now).nodes id.now };

    /// The number of a new node part. An `Err` is for a number that there is no room for, too.
    fn draw_node(&mut self) -> Result<B36, AllocError>
        ensures drawn { IfOk result (λ n. n.number ≡ (folder self.old).next_node) }
        ensures done { OnOk result (folder self.new ≡ record (folder self.old) { next_node = (folder self.old).next_node + 1 }) }
        ensures settled { settled self.new ≡ settled self.old }
        ensures quiet { faults self.new ≡ faults self.old }
        ensures name { txn self.new ≡ txn self.old };

    /// The number of a new copy part. An `Err` is for a number that there is no room for, too.
    fn draw_copy(&mut self) -> Result<B36, AllocError>
        ensures drawn { IfOk result (λ n. n.number ≡ (folder self.old).next_copy) }
        ensures done { OnOk result (folder self.new ≡ record (folder self.old) { next_copy = (folder self.old).next_copy + 1 }) }
        ensures settled { settled self.new ≡ settled self.old }
        ensures quiet { faults self.new ≡ faults self.old }
        ensures name { txn self.new ≡ txn self.old };

    /// Puts a node-revision that has no file yet behind a name of a directory with these entries. Those of a directory that has a
    /// `children` file are the ones there.
    fn put_child(
        &mut self,
        dir: &NodeId,
        entries: Listing,
        name: &str,
        kind: Kind,
        child: NodeRev,
    ) -> Result<(), AllocError>
        requires dir { IsSome (kept_at (folder self.old).nodes dir.now) }
        requires new { kept_at (folder self.old).nodes child.id ≡ None }
        requires entries { AreOwnEntries (folder self.old) dir.now (listed entries) }
        ensures done { (k : Kept) → kept_at (folder self.old).nodes dir.now ≡ Some k → OnOk result (IsEntryPut (folder self.old) (folder self.new) dir.now k (listed entries) name.now kind child) }
        ensures settled { settled self.new ≡ settled self.old }
        ensures quiet { faults self.new ≡ faults self.old }
        ensures name { txn self.new ≡ txn self.old };

    /// Takes away the entry of a name, of a directory with these entries.
    fn take_entry(&mut self, dir: &NodeId, entries: Listing, name: &str) -> Result<(), AllocError>
        requires dir { IsSome (kept_at (folder self.old).nodes dir.now) }
        requires entries { AreOwnEntries (folder self.old) dir.now (listed entries) }
        ensures done { OnOk result (IsEntryTaken (folder self.old) (folder self.new) dir.now (listed entries) name.now) }
        ensures settled { settled self.new ≡ settled self.old }
        ensures quiet { faults self.new ≡ faults self.old }
        ensures name { txn self.new ≡ txn self.old };

    /// Gives a node-revision another text, a representation.
    fn put_text(&mut self, id: &NodeId, rep: &Rep) -> Result<(), AllocError>
        requires here { IsSome (kept_at (folder self.old).nodes id.now) }
        ensures done { (k : Kept) → kept_at (folder self.old).nodes id.now ≡ Some k → OnOk result (folder self.new ≡ text_put (folder self.old) id.now k rep.now) }
        ensures settled { settled self.new ≡ settled self.old }
        ensures quiet { faults self.new ≡ faults self.old }
        ensures name { txn self.new ≡ txn self.old };

    /// Gives a node-revision these properties, in a `props` file.
    fn put_props(&mut self, id: &NodeId, props: Pairs) -> Result<(), AllocError>
        requires here { IsSome (kept_at (folder self.old).nodes id.now) }
        ensures done { (k : Kept) → kept_at (folder self.old).nodes id.now ≡ Some k → OnOk result (folder self.new ≡ props_put (folder self.old) id.now k props) }
        ensures settled { settled self.new ≡ settled self.old }
        ensures quiet { faults self.new ≡ faults self.old }
        ensures name { txn self.new ≡ txn self.old };

    /// Settles the steps, with one item more in the `changes` file.
    fn settle(&mut self, item: ChangeItem) -> Result<(), OwnError>
        ensures done { OnOk result (settled self.new ≡ with_item (folder self.old) item) }
        ensures not_done { IfErr result (λ e. IfMemory e (settled self.new ≡ settled self.old)) }
        ensures cause { HasSettleCause (faults self.old) (faults self.new) result }
        ensures name { txn self.new ≡ txn self.old };

    /// Takes back the steps that were not settled.
    fn forget(&mut self)
        ensures back { folder self.new ≡ settled self.old }
        ensures settled { settled self.new ≡ settled self.old }
        ensures quiet { faults self.new ≡ faults self.old }
        ensures name { txn self.new ≡ txn self.old };
}
