//! The entries of directories, by their names.
ghost use Rattle.std.specs.Prelude.{◌≡◌, IfOk, IfErr};
ghost use Rattle.fsfs_revision.specs.declared.wrong.ReadError.TheVariants.{OutOfMemory};
ghost use Rattle.fsfs_revision.specs.declared.damage.RevOffset.{RevOffset};
ghost use Rattle.fsfs_dag.specs.Views.{entry_values, AreBefore};
ghost use Rattle.fsfs_merge.specs.Clash.Lists.{target_in, three_in, AreListed, AreAllListed, AreTargetsBefore};
ghost use Rattle.fsfs_merge.specs.Clash.Turning.{lists_value};

use crate::clash::three::{Target, Three};
use crate::clash::turn::Listing;
use fsfs_dag::DirEntry;
use fsfs_revision::ReadError;
use std::alloc::Global;
use std::collections::BTreeMap;

/// The entries of a directory. Of two of one name the first counts.
#[derive(Drop)]
pub(crate) struct Entries {
    pub targets: BTreeMap<String, Target>,
}

/// The entries of three directories.
#[derive(Drop)]
pub(crate) struct Sides {
    pub base: Entries,
    pub head: Entries,
    pub own: Entries,
}

// The entries by their names.
fn by_name(alloc: Global, mut entries: Vec<DirEntry>) -> Result<Entries, ReadError>
    ensures listed { IfOk result (λ e. AreListed (entry_values entries.items) e) }
    ensures memory { IfErr result (λ e. e ≡ OutOfMemory) }
{
    let mut targets = BTreeMap::new(alloc);
    while let Some(entry) = entries.pop() {
        let target = Target {
            kind: entry.kind,
            id: entry.id,
        };
        match targets.insert(entry.name, target) {
            Ok(_) => {}
            Err(_) => return Err(ReadError::OutOfMemory),
        }
    }
    Ok(Entries { targets })
}

impl Entries {
    // What stands behind a name.
    fn target(&self, name: &str) -> Option<Target>
        ensures { result ≡ target_in self.now name.now }
    {
        self.targets.get(name).copied()
    }
}

impl Sides {
    /// What the three have behind a name.
    pub(crate) fn three(&self, name: &str) -> Three
        ensures { result ≡ three_in self.now name.now }
    {
        Three {
            base: self.base.target(name),
            head: self.head.target(name),
            own: self.own.target(name),
        }
    }
}

/// The entries of three directories, by their names.
pub(crate) fn sides_of(alloc: Global, lists: Listing) -> Result<Sides, ReadError>
    ensures listed { IfOk result (AreAllListed (lists_value lists)) }
    ensures before { (home : RevOffset) → AreBefore home lists.base.items → IfOk result (λ s. AreTargetsBefore home s.base) }
    ensures memory { IfErr result (λ e. e ≡ OutOfMemory) }
{
    let base = by_name(alloc, lists.base)?;
    let head = by_name(alloc, lists.head)?;
    let own = by_name(alloc, lists.own)?;
    Ok(Sides { base, head, own })
}
