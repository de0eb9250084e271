//! The repository on a disk is packed.
ghost use Rattle.std.specs.Prelude.{◌≡◌, ◌≤◌, None, Some, option_map, IfErr, IfOk, IsTrue};
ghost use Rattle.fsfs_base.specs.Failures.{Rose};
ghost use Rattle.fsfs_disk.specs.Trace.{files_now};
ghost use Rattle.fsfs_machine.specs.Machine.{revisions};
ghost use Rattle.fsfs_repo.specs.PackCauses.{IfBench, IfDisk};
ghost use Rattle.fsfs_repo.specs.Packs.{LeftRose, Renamed};
ghost use Rattle.fsfs_turn.specs.Alone.{packing};
ghost use Rattle.fsfs_turn.specs.Mountings.{RoseBy};
ghost use Rattle.fsfs_turn.specs.Views.{View};
ghost use Rattle.fsfs_pack_run.specs.From.{told_from, PacksFrom};
ghost use Rattle.fsfs_pack_run.specs.Runs.{fault_from_pack, HasJustSeen, KeepsListing, PacksDisk, PacksOver};

use fsfs_base::{Gate, RevNum};
use fsfs_cli::{Fault, OutsideFault, RepositoryFault};
use fsfs_disk::Disk;
use fsfs_repo::{OpenedRepo, PackDone, PackEnd, PackFault, Repo};
use fsfs_revision::{Damage, DamageKind, RevOffset};
use fsfs_turn::{Owned, Turns};
use std::alloc::Global;

/// What packing came to, of a repository that was opened.
#[derive(Clone, Copy, Debug)]
pub struct Packed {
    /// The oldest revision that wasn't packed, as the opening found it.
    pub floor: RevNum,
    /// Of how many shards from there on the floor above them was renamed, whatever came then.
    pub renamed: u64,
    /// How many shards were packed, or why packing stopped.
    pub end: Result<PackEnd, PackFault>,
}

/// The fault of packing that stopped: a revision whose file is absent is damaged at its beginning.
pub fn fault_of(why: PackFault) -> Fault
    ensures { result ≡ fault_from_pack why }
{
    match why {
        PackFault::Stuck(place) => Fault::Outside(OutsideFault::Stuck(place)),
        PackFault::DiskFault(place) => Fault::Outside(OutsideFault::Disk(place)),
        PackFault::BenchFault => Fault::Outside(OutsideFault::Bench),
        PackFault::Missing(rev) => Fault::Repository(RepositoryFault::Corrupt(Damage {
            at: RevOffset { rev, offset: 0 },
            what: DamageKind::Missing,
        })),
        PackFault::Small(small) => Fault::Repository(RepositoryFault::Small(small)),
        PackFault::Memory => Fault::Memory,
    }
}

// What is told of packing that came to this: how many shards were packed, or why not.
fn tell(packed: Result<Packed, Fault>) -> Result<u64, Fault>
    ensures { result ≡ told_from packed }
{
    let end = match packed {
        Ok(packed) => packed.end,
        Err(why) => return Err(why),
    };
    match end {
        Ok(PackEnd::Nothing) => Ok(0),
        Ok(PackEnd::Packed { shards, .. }) => Ok(shards),
        Err(why) => Err(fault_of(why)),
    }
}

// Packs a repository, and gives its disk back.
fn pack_opened<D: Disk, G: Gate>(alloc: Global, repo: Repo<D>, gate: &G) -> (D, PackDone)
    // Of a pass that has seen what there was as images began to be spoken of, which is as the files are, and met no fault that leaves the lock stuck.
    ensures packs { (v : View) → ⟦<Owned<D> as Turns<()>>⟧.knows repo.turns v → v.section ≡ None → HasJustSeen v → option_map files_now (D.trace repo.turns.disk) ≡ Some v.since.files
        → PacksOver (packing v).since (revisions v.seen) result.1.end (D.trace result.0) }
    ensures renamed { Renamed result.1.end result.1.renamed }
    ensures left { IfOk result.1.end (λ end. LeftRose end (D.faults repo.turns.disk) (D.faults result.0)) }
    ensures cause { IfErr result.1.end (λ why. IfDisk why (Rose (D.faults repo.turns.disk) (D.faults result.0))) }
    ensures bench_cause { IfErr result.1.end (λ why. IfBench why (Rose (D.bench_faults repo.turns.disk) (D.bench_faults result.0))) }
    ensures listed { KeepsListing (Rose (D.faults repo.turns.disk) (D.faults result.0)) (D.trace repo.turns.disk) (D.trace result.0) }
    ensures benches { RoseBy 0 (D.bench_faults repo.turns.disk) (D.bench_faults result.0) }
    ensures mounted { D.mount_path result.0 ≡ D.mount_path repo.turns.disk }
    ensures later { D.faults repo.turns.disk ≤ D.faults result.0 }
{
    let (repo, done) = repo.pack(&(), alloc, gate);
    (repo.close(), done)
}

/// Opens the repository on a disk, and packs each shard that is full and isn't packed. The answer says where that began and what it came
/// to. Those that were packed before a fault stay packed.
pub fn pack_from<D: Disk, G: Gate>(alloc: Global, disk: D, gate: &G) -> (D, Result<Packed, Fault>)
    requires { IsTrue (D.may_write disk) }
    ensures packed { PacksFrom (D.faults disk) (D.faults result.0) (Rose (D.bench_faults disk) (D.bench_faults result.0)) (D.trace disk) (D.trace result.0) result.1 }
    ensures benches { RoseBy 0 (D.bench_faults disk) (D.bench_faults result.0) }
    ensures mounted { D.mount_path result.0 ≡ D.mount_path disk }
    ensures later { D.faults disk ≤ D.faults result.0 }
{
    let OpenedRepo { repo, said } = match Repo::open(alloc, disk) {
        Ok(opened) => opened,
        Err(unopened) => return (unopened.disk, Err(Fault::from(unopened.why))),
    };
    let (disk, done) = pack_opened(alloc, repo, gate);
    let packed = Packed {
        floor: said.min_unpacked_rev,
        renamed: done.renamed,
        end: done.end,
    };
    (disk, Ok(packed))
}

/// Opens the repository on a disk, and packs each shard that is full and isn't packed. The answer is how many shards were packed. Those
/// that were packed before a fault stay packed.
pub fn pack_disk<D: Disk, G: Gate>(alloc: Global, disk: D, gate: &G) -> (D, Result<u64, Fault>)
    requires { IsTrue (D.may_write disk) }
    // A bench is told to have failed where the count of those isn't 0: what was counted before is left out of that.
    ensures packed { PacksDisk (D.faults disk) (D.faults result.0) (Rose 0 (D.bench_faults result.0)) (D.trace disk) (D.trace result.0) result.1 }
    ensures mounted { D.mount_path result.0 ≡ D.mount_path disk }
    ensures later { D.faults disk ≤ D.faults result.0 }
{
    let (disk, packed) = pack_from(alloc, disk, gate);
    (disk, tell(packed))
}
