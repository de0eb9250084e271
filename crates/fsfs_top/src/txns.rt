// The transactions of a repository: their listing, and their removal.
ghost use Rattle.std.specs.Prelude.{◌≡◌, ◌≢◌, ◌≤◌, ℕ, List, option_map, IsTrue};
ghost use Rattle.fsfs_base.specs.Failures.{Rose};
ghost use Rattle.fsfs_disk.specs.Trace.{FirmNames, files_now, FailsAt};
ghost use Rattle.fsfs_disk.specs.Crash.{AreAll, Leaves, LeavesBoth};
ghost use Rattle.fsfs_disk.specs.Transactions.Removals.{IsImageOf, WasKept};
ghost use Rattle.fsfs_top.specs.Command.{fault_of};
ghost use Rattle.fsfs_top.specs.Scenes.{SourceScene, host_scene, scene, sink_scene};
ghost use Rattle.fsfs_top.specs.Transactions.{Lists, ListsOpened, ListsTxns, OpeningIsDecided, RemovesOpened, RemovesTxns, removal_fault};

use crate::output::{line_fault, print_txns};
use fsfs_base::{DiskPlace, Sink};
use fsfs_cli::{Fault, OutsideFault, RequestFault, TxnNames};
use fsfs_create::open;
use fsfs_disk::{Access, Disk, Host, ListFault, RemovalFault, rmtxns, txns};
use std::alloc::Global;

// Prints the names of an opened repository's transactions.
fn list_now<D: Disk, O: Sink>(alloc: Global, disk: &mut D, out: &mut O) -> Result<(), Fault>
    ensures listed { Lists (Rose (D.faults disk.old) (D.faults disk.new)) (D.trace disk.old) (sink_scene O.Sink out.old) (sink_scene O.Sink out.new) (fault_of result) }
    ensures same { D.trace disk.new ≡ D.trace disk.old }
    ensures mounted { D.mount_path disk.new ≡ D.mount_path disk.old }
    ensures later { D.faults disk.old ≤ D.faults disk.new }
{
    match txns(alloc, disk) {
        Ok(names) => line_fault(print_txns(out, &names)),
        Err(ListFault::Failed) => Err(Fault::Outside(OutsideFault::Disk(DiskPlace::List))),
        Err(ListFault::Memory) => Err(Fault::Memory),
    }
}

// Opens the repository of a disk, and prints the names of its transactions.
fn list_opened<D: Disk, O: Sink>(alloc: Global, disk: &mut D, out: &mut O) -> Result<(), Fault>
    ensures listed { ListsOpened (Rose (D.faults disk.old) (D.faults disk.new)) (D.trace disk.old) (sink_scene O.Sink out.old) (sink_scene O.Sink out.new) (fault_of result) }
    ensures decided { OpeningIsDecided (D.trace disk.old) (fault_of result) }
    ensures ended { FailsAt FirmNames (D.trace disk.old) (D.trace disk.new) }
    ensures mounted { D.mount_path disk.new ≡ D.mount_path disk.old }
    ensures later { D.faults disk.old ≤ D.faults disk.new }
{
    match open(alloc, disk) {
        Ok(_opened) => list_now(alloc, disk, out),
        Err(fault) => Err(Fault::from(fault)),
    }
}

/// Mounts a path to read it, and prints the names of the transactions of the repository there.
pub(crate) fn list_at<H: Host, O: Sink>(
    alloc: Global,
    repos: &str,
    host: &mut H,
    out: &mut O,
) -> Result<(), Fault>
    ensures listed { (input : SourceScene) → ListsTxns repos.now (scene H.Host O.Sink host.old out.old input) (scene H.Host O.Sink host.new out.new input) (fault_of result) }
    ensures decided { OpeningIsDecided (H.disk_at host.old repos.now) (fault_of result) }
    // All that it does to the disk is to make the names firm.
    ensures ended { FailsAt FirmNames (H.disk_at host.old repos.now) (H.disk_at host.new repos.now) }
    ensures others { (path : List ℕ) → path ≢ repos.now → H.disk_at host.new path ≡ H.disk_at host.old path }
{
    let mut disk = match host.mount(repos, Access::Read) {
        Ok(disk) => disk,
        Err(_) => return Err(Fault::Outside(OutsideFault::Mount)),
    };
    let listed = list_opened(alloc, &mut disk, out);
    host.unmount(disk);
    listed
}

// The fault of a removal that ended so.
fn removed(ended: Result<(), RemovalFault>) -> Result<(), Fault>
    ensures { fault_of result ≡ removal_fault ended }
{
    match ended {
        Ok(()) => Ok(()),
        Err(RemovalFault::NoTxn(name)) => Err(Fault::Request(RequestFault::NoTxn(name))),
        Err(RemovalFault::Failed) => Err(Fault::Outside(OutsideFault::Disk(DiskPlace::Remove))),
    }
}

// Opens the repository of a disk, and removes transactions of it.
fn remove_opened<D: Disk>(alloc: Global, disk: &mut D, names: &TxnNames) -> Result<(), Fault>
    requires { IsTrue (D.may_write disk.old) }
    ensures removed { RemovesOpened (Rose (D.faults disk.old) (D.faults disk.new)) names.now (D.trace disk.old) (D.trace disk.new) (fault_of result) }
    ensures decided { OpeningIsDecided (D.trace disk.old) (fault_of result) }
    ensures same { option_map files_now (D.trace disk.new) ≡ option_map files_now (D.trace disk.old) }
    ensures any_moment { Leaves (D.trace disk.old) (D.trace disk.new) (IsImageOf (D.trace disk.old)) }
    ensures labels { LeavesBoth (D.trace disk.old) (D.trace disk.new) (λ m ls. AreAll (WasKept (D.trace disk.old)) ls) }
    ensures mounted { D.mount_path disk.new ≡ D.mount_path disk.old }
    ensures later { D.faults disk.old ≤ D.faults disk.new }
{
    match open(alloc, disk) {
        Ok(_opened) => removed(rmtxns(disk, names.as_slice())),
        Err(fault) => Err(Fault::from(fault)),
    }
}

/// Mounts a path to write to it, and removes transactions of the repository there.
pub(crate) fn remove_at<H: Host>(
    alloc: Global,
    repos: &str,
    names: &TxnNames,
    host: &mut H,
) -> Result<(), Fault>
    ensures removed { RemovesTxns repos.now names.now (host_scene H.Host host.old) (host_scene H.Host host.new) (fault_of result) }
    ensures decided { OpeningIsDecided (H.disk_at host.old repos.now) (fault_of result) }
    ensures same { option_map files_now (H.disk_at host.new repos.now) ≡ option_map files_now (H.disk_at host.old repos.now) }
    ensures any_moment { Leaves (H.disk_at host.old repos.now) (H.disk_at host.new repos.now) (IsImageOf (H.disk_at host.old repos.now)) }
    ensures labels { LeavesBoth (H.disk_at host.old repos.now) (H.disk_at host.new repos.now) (λ m ls. AreAll (WasKept (H.disk_at host.old repos.now)) ls) }
    ensures others { (path : List ℕ) → path ≢ repos.now → H.disk_at host.new path ≡ H.disk_at host.old path }
{
    let mut disk = match host.mount(repos, Access::Write) {
        Ok(disk) => disk,
        Err(_) => return Err(Fault::Outside(OutsideFault::Mount)),
    };
    let removed = remove_opened(alloc, &mut disk, names);
    host.unmount(disk);
    removed
}
