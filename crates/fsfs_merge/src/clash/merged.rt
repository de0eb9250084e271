//! What a merged directory has after the merge.
ghost use Rattle.std.specs.Prelude.{◌≡◌, ◌++◌, ◌∷◌, [], IfOk, OnOk};
ghost use Rattle.fsfs_base.specs.Paths.{PathName};
ghost use Rattle.fsfs_dag.specs.Views.{entry_values};
ghost use Rattle.fsfs_merge.specs.Clash.Lists.{target_named, three_in, link_of};
ghost use Rattle.fsfs_merge.specs.Clash.Merging.{if_merged, merged_of};
ghost use Rattle.fsfs_merge.specs.Clash.Threes.{merged_target};

use crate::clash::entries::{Entries, Sides};
use crate::clash::three::{Side, Target};
use fsfs_dag::DirEntry;
use fsfs_noderev::{NodeId, NodeRev};
use std::alloc::{AllocError, Global};

/// What a merged directory goes on from.
#[derive(Clone, Copy)]
pub struct Link {
    /// The transaction's own directory.
    pub own: NodeId,
    /// The head's, which it goes on from.
    pub head: NodeId,
    /// How many predecessors it has then.
    pub count: u64,
}

/// A directory that a merge writes.
#[derive(Drop)]
pub struct MergedDir {
    pub link: Link,
    /// What it has then.
    pub entries: Vec<DirEntry>,
}

pub(crate) fn link_of(head: &NodeRev, own: &NodeId) -> Link
    ensures { result ≡ link_of head.now own.now }
{
    Link {
        own: *own,
        head: head.id,
        count: head.count.saturating_add(1),
    }
}

// Puts an entry of one side, where it is there after the merge.
fn push_if_merged(
    alloc: Global,
    all: &mut Vec<DirEntry>,
    name: &str,
    target: &Target,
    sides: &Sides,
    side: Side,
) -> Result<(), AllocError>
    ensures { OnOk result (entry_values all.new.items ≡ entry_values all.old.items ++ if_merged side name.now target.now (three_in sides.now name.now)) }
{
    let three = sides.three(name);
    if !side.is_taken(&three) {
        return Ok(());
    }
    let name = String::from_str(alloc, name)?;
    all.push(DirEntry {
        name,
        kind: target.kind,
        id: target.id,
    })?;
    Ok(())
}

// Puts those entries of one side that are there after the merge.
fn push_merged(
    alloc: Global,
    all: &mut Vec<DirEntry>,
    entries: &Entries,
    sides: &Sides,
    side: Side,
) -> Result<(), AllocError>
    ensures { OnOk result (entry_values all.new.items ≡ entry_values all.old.items ++ merged_of side sides.now entries.now.targets.entries) }
{
    for (name, target) in &entries.targets {
        push_if_merged(alloc, all, name.as_str(), target, sides, side)?;
    }
    Ok(())
}

/// The entries that are there after the merge.
pub(crate) fn merged_entries(alloc: Global, sides: &Sides) -> Result<Vec<DirEntry>, AllocError>
    ensures { IfOk result (λ v. (name : PathName) → target_named (entry_values v.items) name ≡ merged_target (three_in sides.now name)) }
{
    let mut all = Vec::new(alloc);
    push_merged(alloc, &mut all, &sides.own, sides, Side::Own)?;
    push_merged(alloc, &mut all, &sides.head, sides, Side::Head)?;
    Ok(all)
}
