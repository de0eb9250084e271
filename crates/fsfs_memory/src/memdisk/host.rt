// A host in memory.
ghost use Rattle.std.specs.Prelude.{◌≡◌, ◌≢◌, ℕ, List, IfOk, OnOk, OnErr, IfSome, IfNone, Some, None, option_map, string_bytes};
ghost use Rattle.std.specs.BTreeMap.{get_by_text};
ghost use Rattle.std.specs.Map.{update};
ghost use Rattle.std.specs.Option.{ForSome};
ghost use Rattle.std.specs.Str.{bytes_eq};
ghost use Rattle.fsfs_memory.specs.Memdisk.MemDisk.{disk_in, trace_of};

use crate::memdisk::disk::MemDisk;
use fsfs_disk::{Access, Host, MountFault};
use std::alloc::{AllocError, Global};
use std::collections::BTreeMap;

/// Disks in memory, each at its path.
#[derive(Drop)]
pub struct MemHost {
    alloc: Global,
    // The place of a path is empty while its disk is mounted.
    disks: BTreeMap<String, Option<MemDisk>>,
    mount_faults: u64,
    disk_faults: u64,
    bench_faults: u64,
    ghost at_their_paths: { (path : List ℕ) → ForSome (disk_in (get_by_text disks path)) (λ disk. string_bytes disk.mount_path ≡ path) },
}

impl MemHost {
    ghost use Rattle.fsfs_memory.specs.Memdisk.MemHost.{trace_at};

    /// A host with no disks.
    pub fn new(alloc: Global) -> MemHost
        ensures none { (path : List ℕ) → trace_at result path ≡ None }
        ensures mount_faults { result.mount_faults ≡ 0 }
        ensures disk_faults { result.disk_faults ≡ 0 }
        ensures bench_faults { result.bench_faults ≡ 0 }
    {
        MemHost {
            alloc,
            disks: BTreeMap::new(alloc),
            mount_faults: 0,
            disk_faults: 0,
            bench_faults: 0,
        }
    }

    /// Puts a disk at a path, in place of the one that the path had.
    pub fn add_disk(&mut self, path: &str, disk: MemDisk) -> Result<(), AllocError>
        ensures ok { OnOk result (trace_at self.new path.now ≡ Some (trace_of disk)) }
        ensures others { (p : List ℕ) → p ≢ path.now → trace_at self.new p ≡ trace_at self.old p }
        ensures err { OnErr result (trace_at self.new path.now ≡ trace_at self.old path.now) }
        ensures mount_faults { self.new.mount_faults ≡ self.old.mount_faults }
        ensures disk_faults { self.new.disk_faults ≡ self.old.disk_faults }
        ensures bench_faults { self.new.bench_faults ≡ self.old.bench_faults }
    {
        let place = path.to_string(self.alloc)?;
        let mount_path = path.to_string(self.alloc)?;
        self.disks.insert(place, Some(disk.mounted_at(mount_path)))?;
        Ok(())
    }

    /// The disk that stands at a path.
    pub fn disk(&self, path: &str) -> Option<&MemDisk>
        ensures { option_map (λ disk. trace_of disk.now) result ≡ trace_at self.now path.now }
    {
        match self.disks.get(path) {
            Some(place) => place.as_ref(),
            None => None,
        }
    }

    /// Takes the disk of a path away, as it stands there.
    pub fn take_disk(&mut self, path: &str) -> Option<MemDisk>
        ensures disk { option_map trace_of result ≡ trace_at self.old path.now }
        ensures gone { trace_at self.new path.now ≡ None }
        ensures others { (p : List ℕ) → p ≢ path.now → trace_at self.new p ≡ trace_at self.old p }
        ensures mount_faults { self.new.mount_faults ≡ self.old.mount_faults }
        ensures disk_faults { self.new.disk_faults ≡ self.old.disk_faults }
        ensures bench_faults { self.new.bench_faults ≡ self.old.bench_faults }
    {
        take(&mut self.disks, path)
    }

    /// How often a mount failed.
    pub fn mount_faults(&self) -> u64
        ensures { result ≡ self.now.mount_faults }
    {
        self.mount_faults
    }

    /// How often the disks failed that it took back.
    pub fn disk_faults(&self) -> u64
        ensures { result ≡ self.now.disk_faults }
    {
        self.disk_faults
    }

    /// How often the benches failed that those disks took back.
    pub fn bench_faults(&self) -> u64
        ensures { result ≡ self.now.bench_faults }
    {
        self.bench_faults
    }
}

// Takes the disk of a path out of its place, which stays.
fn take(disks: &mut BTreeMap<String, Option<MemDisk>>, path: &str) -> Option<MemDisk>
    ensures taken { result ≡ disk_in (get_by_text disks.old path.now) }
    ensures emptied { IfSome result (λ disk. (p : List ℕ) → get_by_text disks.new p ≡ update bytes_eq (get_by_text disks.old) path.now (Some None) p) }
    ensures none { IfNone result ((p : List ℕ) → get_by_text disks.new p ≡ get_by_text disks.old p) }
{
    match disks.get_mut(path) {
        Some(place) => place.take(),
        None => None,
    }
}

// Puts a disk back into its place.
fn put_back(disks: &mut BTreeMap<String, Option<MemDisk>>, disk: MemDisk)
    requires { get_by_text disks.old (string_bytes disk.mount_path) ≡ Some None }
    ensures { (p : List ℕ) → get_by_text disks.new p ≡ update bytes_eq (get_by_text disks.old) (string_bytes disk.mount_path) (Some (Some disk)) p }
{
    if let Some(place) = disks.get_mut(disk.mount_path()) {
        *place = Some(disk);
    }
}

impl Host for MemHost {
    type Mounted = MemDisk;

    ghost use Rattle.fsfs_memory.specs.Memdisk.MemHost.{trace_at, IsOut};

    ghost disk_at = { trace_at };

    ghost is_mounted = { IsOut };

    ghost mount_faults = { λ h. h.mount_faults };

    ghost disk_faults = { λ h. h.disk_faults };

    ghost bench_faults = { λ h. h.bench_faults };

    fn mount(&mut self, path: &str, _access: Access) -> Result<MemDisk, MountFault> {
        match take(&mut self.disks, path) {
            Some(disk) => Ok(disk.unfailed()),
            None => {
                self.mount_faults = self.mount_faults.saturating_add(1);
                Err(MountFault)
            }
        }
    }

    fn unmount(&mut self, disk: MemDisk) {
        self.disk_faults = self.disk_faults.saturating_add(disk.faults());
        self.bench_faults = self.bench_faults.saturating_add(disk.bench_faults());
        put_back(&mut self.disks, disk);
    }
}
