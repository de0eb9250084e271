//! The own node-revisions of a transaction, held in memory beside its bench.
ghost use Rattle.std.specs.Prelude.{◌≡◌, codes, length, option_map, IfOk, IfErr, IfSome};
ghost use Rattle.fsfs_base.specs.Failures.{HasCause};
ghost use Rattle.fsfs_disk.specs.Benches.{bytes_on};
ghost use Rattle.fsfs_draft.specs.Views.{kept_value};
ghost use Rattle.fsfs_txn_nodes.specs.Memory.Keys.{at_key};
ghost use Rattle.fsfs_txn_nodes.specs.Memory.Lists.{files_of, with_steps};
ghost use Rattle.fsfs_txn_nodes.specs.Memory.Views.{begun_folder};
ghost use Rattle.fsfs_txn_nodes.specs.Memory.Written.{filed, HasTold, LeadTo};

use crate::memory::changed::{merged_id, new_node, relinked, with_entries, with_props, with_text};
use crate::memory::edit_steps::{Step, Steps};
use crate::memory::files::OwnFiles;
use crate::memory::keys::{NodeKey, key_of};
use crate::memory::nodes::{Nodes, make_room, node_at, put, settle_steps};
use crate::memory::writing::{take_files, write_files};
use crate::txn_folder::file_changes::{
    child_files, merged_files, next_files, property_files, settled_files, taken_files, text_files,
};
use fsfs_base::{B36, Failed, Kind, Name, Pairs, TxnName, next_b36};
use fsfs_dag::{Listing, Target};
use fsfs_disk::Bench;
use fsfs_draft::{KeptNode, Own, OwnError};
use fsfs_layout::NextIds;
use fsfs_merge::{MergedDir, Relink};
use fsfs_noderev::{ChangeItem, NodeId, NodeRev, Rep};
use fsfs_txn_files::FileChange;
use std::alloc::{AllocError, Global};
use std::collections::HashMap;

/// The own node-revisions of a transaction. They are held in memory and never read back from the bench, into which what is settled is
/// written; and it has the prototype revision file. The steps of the edit that is being made stand beside what is settled, the newest
/// last, and what they are to write.
#[derive(Drop)]
pub struct HeldNodes<D: Bench> {
    alloc: Global,
    pub(crate) txn: TxnName,
    pub(crate) bench: D,
    pub(crate) proto: Name,
    settled: Nodes,
    steps: Steps,
    changes: Vec<FileChange>,
    settled_next: NextIds,
    next: NextIds,
    items: Vec<ChangeItem>,
    // The name that a transaction's prototype revision file has in its bench. No other file of the folder has it.
    ghost named: { proto ≡ codes "rev" },
    /// As long as the bench has not failed, its files tell what is settled, wherever it tells them.
    pub ghost told: { ∥ HasTold (D.faults bench) (D.contents bench) (filed (files_of settled) settled_next items.items) ∥₁ },
    // What the steps are to write leads to what they leave.
    ghost ready: { ∥ LeadTo changes.items (filed (files_of settled) settled_next items.items) (filed (with_steps steps.list.items (files_of settled)) settled_next items.items) ∥₁ },
}

impl<D: Bench> HeldNodes<D> {
    /// A transaction that has just begun: it has its root alone, as its bench tells. Its texts go into the bench's file `rev`. An `Err`
    /// is for want of memory, and gives the bench back.
    pub fn begin(alloc: Global, txn: TxnName, root: NodeRev, bench: D) -> Result<HeldNodes<D>, D>
        requires told { HasTold (D.faults bench) (D.contents bench) (begun_folder root (D.contents bench) (codes "rev")) }
        ensures name { IfOk result (λ held. ⟦<HeldNodes<D> as Own>⟧.txn held ≡ txn) }
        ensures folder { IfOk result (λ held. ⟦<HeldNodes<D> as Own>⟧.folder held ≡ begun_folder root (D.contents bench) (codes "rev")) }
        ensures settled { IfOk result (λ held. ⟦<HeldNodes<D> as Own>⟧.settled held ≡ begun_folder root (D.contents bench) (codes "rev")) }
        ensures faults { IfOk result (λ held. ⟦<HeldNodes<D> as Own>⟧.faults held ≡ D.faults bench) }
        ensures back { IfErr result (λ back. back ≡ bench) }
    {
        let mut settled = HashMap::new(alloc);
        let Ok(()) = make_room(&mut settled, 1) else {
            return Err(bench);
        };
        let key = key_of(&root.id);
        let kept = new_node(root);
        put(&mut settled, Step { key, kept });
        let next = NextIds {
            node: B36 { number: 0 },
            copy: B36 { number: 0 },
        };
        let proto = Name::new("rev");
        Ok(HeldNodes {
            alloc,
            txn,
            bench,
            proto,
            settled,
            steps: Steps::new(alloc),
            changes: Vec::new(alloc),
            settled_next: next,
            next,
            items: Vec::new(alloc),
        })
    }

    /// The bench again.
    pub fn into_bench(self) -> D
        ensures { result ≡ self.bench }
    {
        let HeldNodes { bench, .. } = self;
        bench
    }

    /// The bench again, and the name of its prototype file.
    pub fn into_parts(self) -> (D, Name)
        ensures proto { bytes_on (D.contents result.0) result.1 ≡ (⟦<HeldNodes<D> as Own>⟧.settled self).proto }
        ensures bench { result.0 ≡ self.bench }
    {
        let HeldNodes { bench, proto, .. } = self;
        (bench, proto)
    }

    /// The items of its edits, in their order.
    pub fn items(&self) -> &[ChangeItem]
        ensures { result.now ≡ (⟦<HeldNodes<D> as Own>⟧.settled self.now).items }
    {
        self.items.as_slice()
    }

    /// How many bytes its prototype file has; none where there is no such file.
    pub fn proto_length(&mut self) -> Result<u64, Failed>
        ensures length { IfSome (D.contents self.old.bench) (λ m. IfOk result (λ n. n ≡ length (⟦<HeldNodes<D> as Own>⟧.settled self.old).proto)) }
        ensures folder { ⟦<HeldNodes<D> as Own>⟧.folder self.new ≡ ⟦<HeldNodes<D> as Own>⟧.folder self.old }
        ensures settled { ⟦<HeldNodes<D> as Own>⟧.settled self.new ≡ ⟦<HeldNodes<D> as Own>⟧.settled self.old }
        ensures name { ⟦<HeldNodes<D> as Own>⟧.txn self.new ≡ ⟦<HeldNodes<D> as Own>⟧.txn self.old }
        ensures cause { HasCause (D.faults self.old.bench) (D.faults self.new.bench) result }
    {
        match self.bench.len(&self.proto) {
            Ok(Some(count)) => Ok(count),
            Ok(None) => Ok(0),
            Err(failed) => Err(failed),
        }
    }

    // The node-revision at a key, as the steps left it.
    fn found(&self, key: &NodeKey) -> Option<&KeptNode>
        ensures { option_map (λ k. kept_value k.now) result ≡ at_key (with_steps self.now.steps.list.items (files_of self.now.settled)) key.now }
    {
        match self.steps.last_at(key) {
            Some(kept) => Some(kept),
            None => node_at(&self.settled, key),
        }
    }
}

impl<D: Bench> Own for HeldNodes<D> {
    ghost use Rattle.fsfs_txn_nodes.specs.Memory.Lists.{files_of, with_steps};
    ghost use Rattle.fsfs_txn_nodes.specs.Memory.Views.{folder_of};

    ghost folder = { λ h. folder_of (with_steps h.steps.list.items (files_of h.settled)) h.next h.items.items (D.contents h.bench) h.proto };

    ghost settled = { λ h. folder_of (files_of h.settled) h.settled_next h.items.items (D.contents h.bench) h.proto };

    ghost txn = { λ h. h.txn };

    ghost faults = { λ h. D.faults h.bench };

    fn name(&self) -> TxnName {
        self.txn
    }

    fn kept(&self, id: &NodeId) -> Option<&KeptNode> {
        self.found(&key_of(id))
    }

    fn draw_node(&mut self) -> Result<B36, AllocError> {
        let drawn = self.next.node;
        let Some(node) = next_b36(&drawn) else {
            return Err(AllocError);
        };
        self.next.node = node;
        Ok(drawn)
    }

    fn draw_copy(&mut self) -> Result<B36, AllocError> {
        let drawn = self.next.copy;
        let Some(copy) = next_b36(&drawn) else {
            return Err(AllocError);
        };
        self.next.copy = copy;
        Ok(drawn)
    }

    fn put_child(
        &mut self,
        dir: &NodeId,
        entries: Listing,
        name: &str,
        kind: Kind,
        child: NodeRev,
    ) -> Result<(), AllocError> {
        let alloc = self.alloc;
        let key = key_of(dir);
        let Some(kept) = self.found(&key) else {
            return Err(AllocError);
        };
        let target = Target { kind, id: child.id };
        let new = entries.with(alloc, name, target)?;
        let opened = with_entries(kept, new)?;
        let files = child_files(alloc, dir, kept, &entries, &opened.node, name, kind, &child)?;
        self.steps.reserve(2)?;
        let Ok(()) = take_files(&mut self.changes, files) else {
            return Err(AllocError);
        };
        let child_key = key_of(&child.id);
        let made = new_node(child);
        self.steps.push_reserved(Step {
            key: child_key,
            kept: made,
        });
        self.steps.push_reserved(Step { key, kept: opened });
        Ok(())
    }

    fn take_entry(&mut self, dir: &NodeId, entries: Listing, name: &str) -> Result<(), AllocError> {
        let alloc = self.alloc;
        let key = key_of(dir);
        let Some(kept) = self.found(&key) else {
            return Err(AllocError);
        };
        let new = entries.without(alloc, name)?;
        let opened = with_entries(kept, new)?;
        let files = taken_files(alloc, dir, kept, &entries, &opened.node, name)?;
        self.steps.reserve(1)?;
        let Ok(()) = take_files(&mut self.changes, files) else {
            return Err(AllocError);
        };
        self.steps.push_reserved(Step { key, kept: opened });
        Ok(())
    }

    fn put_text(&mut self, id: &NodeId, rep: &Rep) -> Result<(), AllocError> {
        let alloc = self.alloc;
        let key = key_of(id);
        let Some(kept) = self.found(&key) else {
            return Err(AllocError);
        };
        let changed = with_text(kept, rep)?;
        let files = text_files(alloc, id, &changed.node)?;
        self.steps.reserve(1)?;
        let Ok(()) = take_files(&mut self.changes, files) else {
            return Err(AllocError);
        };
        self.steps.push_reserved(Step { key, kept: changed });
        Ok(())
    }

    fn put_props(&mut self, id: &NodeId, props: Pairs) -> Result<(), AllocError> {
        let alloc = self.alloc;
        let key = key_of(id);
        let Some(kept) = self.found(&key) else {
            return Err(AllocError);
        };
        let changed = with_props(kept, props)?;
        let Some(list) = &changed.props else {
            return Err(AllocError);
        };
        let files = property_files(alloc, id, &changed.node, list)?;
        self.steps.reserve(1)?;
        let Ok(()) = take_files(&mut self.changes, files) else {
            return Err(AllocError);
        };
        self.steps.push_reserved(Step { key, kept: changed });
        Ok(())
    }

    fn settle(&mut self, item: ChangeItem) -> Result<(), OwnError> {
        let Ok(last) = settled_files(self.alloc, &self.next, &item) else {
            return Err(OwnError::OutOfMemory);
        };
        let Ok(()) = self.items.reserve(1) else {
            return Err(OwnError::OutOfMemory);
        };
        let Ok(()) = make_room(&mut self.settled, self.steps.len()) else {
            return Err(OwnError::OutOfMemory);
        };
        let Ok(()) = write_files(&mut self.bench, &self.changes, &last) else {
            return Err(OwnError::BenchFault);
        };
        self.changes.clear();
        self.items.push_reserved(item);
        settle_steps(&mut self.settled, &mut self.steps);
        self.settled_next = self.next;
        Ok(())
    }

    fn forget(&mut self) {
        self.steps.clear();
        self.changes.clear();
        self.next = self.settled_next;
    }
}

/// What is settled is written into its bench.
impl<D: Bench> OwnFiles for HeldNodes<D> {
    ghost use Rattle.fsfs_txn_nodes.specs.Memory.Lists.{files_of};
    ghost use Rattle.fsfs_txn_nodes.specs.Memory.Written.{files_told};

    ghost files = { λ h. D.contents h.bench };

    ghost told = { λ h. files_told (D.faults h.bench) (D.contents h.bench) (files_of h.settled) h.settled_next h.items.items h.proto h.named h.told };
}

/// A merge writes its directories in memory, like the steps of an edit.
impl<D: Bench> Relink for HeldNodes<D> {
    fn relink(&mut self, dir: MergedDir) -> Result<(), AllocError> {
        let alloc = self.alloc;
        let own = merged_id(&dir);
        let key = key_of(&own);
        let Some(kept) = self.found(&key) else {
            return Err(AllocError);
        };
        let merged = relinked(alloc, kept, dir)?;
        let Some(entries) = &merged.entries else {
            return Err(AllocError);
        };
        let files = merged_files(alloc, &own, entries, &merged.node)?;
        self.steps.reserve(1)?;
        let Ok(()) = take_files(&mut self.changes, files) else {
            return Err(AllocError);
        };
        self.steps.push_reserved(Step { key, kept: merged });
        Ok(())
    }

    fn settle_merged(&mut self) -> Result<(), OwnError> {
        let Ok(last) = next_files(self.alloc, &self.next) else {
            return Err(OwnError::OutOfMemory);
        };
        let Ok(()) = make_room(&mut self.settled, self.steps.len()) else {
            return Err(OwnError::OutOfMemory);
        };
        let next = self.next;
        let Ok(()) = write_files(&mut self.bench, &self.changes, &last) else {
            return Err(OwnError::BenchFault);
        };
        self.changes.clear();
        settle_steps(&mut self.settled, &mut self.steps);
        self.settled_next = next;
        Ok(())
    }
}
