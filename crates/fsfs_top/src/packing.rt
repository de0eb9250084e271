// Full shards of a repository become packs.
ghost use Rattle.std.specs.Prelude.{◌≡◌, ◌≢◌, ℕ, List};
ghost use Rattle.fsfs_tree.specs.Revisions.{Revision};
ghost use Rattle.fsfs_top.specs.Command.{fault_of};
ghost use Rattle.fsfs_top.specs.Packing.{HoldsHistory, Packs, PrintsPacked};
ghost use Rattle.fsfs_top.specs.Scenes.{SourceScene, scene, sink_scene};
ghost use Rattle.fsfs_top.specs.Transactions.{OpeningIsDecided};

use crate::output::{line_fault, print_packed};
use fsfs_base::{Gate, Sink};
use fsfs_cli::{Fault, OutsideFault};
use fsfs_disk::{Access, Host};
use fsfs_pack_run::pack_disk;
use std::alloc::Global;

// Prints how many shards were packed, where that is told.
fn tell_packed<O: Sink>(out: &mut O, packed: Result<u64, Fault>) -> Result<(), Fault>
    ensures { PrintsPacked packed (sink_scene O.Sink out.old) (sink_scene O.Sink out.new) (fault_of result) }
{
    match packed {
        Ok(shards) => line_fault(print_packed(out, shards)),
        Err(fault) => Err(fault),
    }
}

/// Mounts a path to write to it, packs the repository there, and prints how many shards were packed.
pub(crate) fn pack_at<H: Host, O: Sink, G: Gate>(
    alloc: Global,
    repos: &str,
    host: &mut H,
    out: &mut O,
    gate: &G,
) -> Result<(), Fault>
    ensures packed { (input : SourceScene) → Packs repos.now (scene H.Host O.Sink host.old out.old input) (scene H.Host O.Sink host.new out.new input) (fault_of result) }
    ensures decided { OpeningIsDecided (H.disk_at host.old repos.now) (fault_of result) }
    // Whatever failed, its files stand for the history that they stood for.
    ensures kept { (h : List Revision) → HoldsHistory h (H.disk_at host.old repos.now) → HoldsHistory h (H.disk_at host.new repos.now) }
    ensures others { (path : List ℕ) → path ≢ repos.now → H.disk_at host.new path ≡ H.disk_at host.old path }
{
    let disk = match host.mount(repos, Access::Write) {
        Ok(disk) => disk,
        Err(_) => return Err(Fault::Outside(OutsideFault::Mount)),
    };
    let (disk, packed) = pack_disk(alloc, disk, gate);
    host.unmount(disk);
    tell_packed(out, packed)
}
