// A host: a disk for each path.
ghost use Rattle.std.specs.Prelude.{◌≡◌, ◌≢◌, ◌≤◌, ℕ, List, Option, Some, IfOk, OnOk, OnErr, IsTrue};
ghost use Rattle.fsfs_disk.specs.Accesses.{MayChange};
ghost use Rattle.fsfs_base.specs.Failures.{HasCause, added_count};
ghost use Rattle.fsfs_disk.specs.Trace.{Trace};

use crate::access::Access;
use crate::disk::Disk;
use thiserror::Error;

/// The path could not be mounted, and the host's count of mounts rose.
#[derive(Clone, Copy, Debug, Error)]
#[error("the path could not be mounted")]
pub struct MountFault;

/// What has a disk for each path of a repository.
pub trait Host {
    type Mounted: Disk;

    /// The trace of the disk of a path, where the host has it and tells it.
    ghost disk_at: { Self → List ℕ → Option Trace };

    /// The disk of the path is mounted.
    ghost is_mounted: { Self → List ℕ → Type 0 };

    /// How often a mount failed.
    ghost mount_faults: { Self → ℕ };

    /// How often the disks failed that it took back.
    ghost disk_faults: { Self → ℕ };

    /// How often the benches failed that those disks took back.
    ghost bench_faults: { Self → ℕ };

    /// Hands out the disk of a path, with both counts of faults 0. But for a look its files may be changed, and no other writer has it
    /// at the same time. Where a repository is to be changed and none stands there, nothing is made ready, and no file can be changed.
    fn mount(&mut self, path: &str, access: Access) -> Result<Self::Mounted, MountFault>
        ensures disk { IfOk result (λ d. Self.Mounted.trace d ≡ disk_at self.old path.now) }
        ensures path { IfOk result (λ d. Self.Mounted.mount_path d ≡ path.now) }
        ensures new { IfOk result (λ d. Self.Mounted.faults d ≡ 0) }
        ensures new_benches { IfOk result (λ d. Self.Mounted.bench_faults d ≡ 0) }
        ensures right { IfOk result (λ d. MayChange access → IsTrue (Self.Mounted.may_write d)) }
        ensures out { OnOk result (is_mounted self.new path.now) }
        ensures others { (p : List ℕ) → p ≢ path.now → disk_at self.new p ≡ disk_at self.old p }
        ensures err { OnErr result (disk_at self.new path.now ≡ disk_at self.old path.now) }
        ensures same_faults { disk_faults self.new ≡ disk_faults self.old }
        ensures same_benches { bench_faults self.new ≡ bench_faults self.old }
        ensures cause { HasCause (mount_faults self.old) (mount_faults self.new) result };

    /// Takes a disk back, and adds its two counts of faults to the host's.
    fn unmount(&mut self, disk: Self::Mounted)
        requires { is_mounted self.old (Self.Mounted.mount_path disk) }
        ensures back { disk_at self.new (Self.Mounted.mount_path disk) ≡ Self.Mounted.trace disk }
        ensures others { (p : List ℕ) → p ≢ Self.Mounted.mount_path disk → disk_at self.new p ≡ disk_at self.old p }
        ensures faults { disk_faults self.new ≡ added_count (disk_faults self.old) (Self.Mounted.faults disk) }
        ensures benches { bench_faults self.new ≡ added_count (bench_faults self.old) (Self.Mounted.bench_faults disk) }
        ensures same { mount_faults self.new ≡ mount_faults self.old };
}
