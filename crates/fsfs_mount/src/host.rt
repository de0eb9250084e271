// A disk for each folder of a system.
ghost use Rattle.std.specs.Prelude.{◌≡◌, ℕ, List, None};
ghost use Rattle.std.specs.BTreeMap.{get_by_text};

use crate::disk::FolderDisk;
use crate::file_system::FileSystem;
use crate::mounting::{give_back, open_disk};
use fsfs_base::counted;
use fsfs_disk::{Access, Host, MountFault};
use fsfs_folders::Folders;
use std::alloc::Global;
use std::collections::BTreeMap;

/// The folders of a system, a disk for each path.
///
/// What stands at a path is kept from one mount to the next, with what isn't firm there. Only the locks go as a disk is given back.
///
/// A path that is mounted can't be mounted again, nor can one without a letter. A path where nothing is can be mounted: no file is
/// found there. For a creation its folder and `db` are made, and where no repository comes to stand they go again as the disk is
/// given back.
#[derive(Drop)]
pub struct FolderHost<F: FileSystem + Drop> {
    alloc: Global,
    files: F,
    // What stands at each path that was mounted; nothing while its disk is out.
    places: BTreeMap<String, Option<Folders<F::Root>>>,
    mount_faults: u64,
    disk_faults: u64,
    bench_faults: u64,
}

impl<F: FileSystem + Drop> FolderHost<F> {
    /// The host over a system, with nothing mounted and no failure counted.
    pub fn new(alloc: Global, files: F) -> FolderHost<F>
        ensures files { result.files ≡ files }
        ensures places { (path : List ℕ) → get_by_text result.places path ≡ None }
        ensures mounts { result.mount_faults ≡ 0 }
        ensures disks { result.disk_faults ≡ 0 }
        ensures benches { result.bench_faults ≡ 0 }
    {
        FolderHost {
            alloc,
            files,
            places: BTreeMap::new(alloc),
            mount_faults: 0,
            disk_faults: 0,
            bench_faults: 0,
        }
    }
}

impl<F: FileSystem + Drop> Host for FolderHost<F> {
    ghost use Rattle.std.specs.Prelude.{◌≡◌, Some, None};
    ghost use Rattle.std.specs.BTreeMap.{get_by_text};
    ghost use Rattle.fsfs_mount.specs.Places.{told_at};

    type Mounted = FolderDisk<F::Root>;

    ghost disk_at = { λ host path. told_at (λ folders. F.Root.Calls.history folders.calls) (get_by_text host.places path) (F.FileSystem.record_at host.files path) };

    ghost is_mounted = { λ host path. get_by_text host.places path ≡ Some None };

    ghost mount_faults = { λ host. host.mount_faults };

    ghost disk_faults = { λ host. host.disk_faults };

    ghost bench_faults = { λ host. host.bench_faults };

    fn mount(&mut self, path: &str, access: Access) -> Result<FolderDisk<F::Root>, MountFault> {
        let opened = open_disk(self.alloc, &mut self.files, &mut self.places, path, access);
        match counted(&mut self.mount_faults, opened) {
            Ok(disk) => Ok(disk),
            Err(_) => Err(MountFault),
        }
    }

    fn unmount(&mut self, disk: FolderDisk<F::Root>) {
        self.disk_faults = self.disk_faults.saturating_add(disk.faults());
        self.bench_faults = self.bench_faults.saturating_add(disk.bench_faults());
        let (path, folders, found) = disk.into_parts();
        give_back(
            self.alloc,
            &mut self.files,
            &mut self.places,
            path.as_str(),
            folders,
            &found,
        );
    }
}
