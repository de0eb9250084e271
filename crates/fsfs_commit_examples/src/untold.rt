// A disk in memory of whose files nothing is told, for passes of which some pack.
ghost use Rattle.std.specs.Prelude.{◌≡◌, true, None, IfOk, OnErr, MatchOption};
ghost use Rattle.fsfs_base.specs.Failures.{HasCause, added_count};
ghost use Rattle.fsfs_disk.specs.Labels.{label_of};
ghost use Rattle.fsfs_disk.specs.Trace.{DropLabel, PerformsIfThere, FailsAt};

use fsfs_base::{Failed, Name};
use fsfs_disk::{Bench, Disk, Label, ListFault};
use fsfs_memory::{MemBench, MemDisk};
use std::alloc::Global;

/// A bench of `UntoldDisk`.
#[derive(Drop)]
pub struct UntoldBench {
    bench: MemBench,
}

impl Bench for UntoldBench {
    ghost use Rattle.std.specs.Prelude.{None};

    ghost contents = { λ b. None };

    ghost firm_to = { λ b name. 0 };

    ghost faults = { λ b. ⟦<MemBench as Bench>⟧.faults b.bench };

    fn append(&mut self, file: &Name, bytes: &[u8]) -> Result<(), Failed> {
        self.bench.append(file, bytes)
    }

    fn write(&mut self, file: &Name, bytes: &[u8]) -> Result<(), Failed> {
        self.bench.write(file, bytes)
    }

    fn read(
        &mut self,
        file: &Name,
        offset: u64,
        buffer: &mut [u8],
    ) -> Result<Option<usize>, Failed> {
        self.bench.read(file, offset, buffer)
    }

    fn len(&mut self, file: &Name) -> Result<Option<u64>, Failed> {
        self.bench.len(file)
    }

    fn firm(&mut self, file: &Name) -> Result<(), Failed> {
        self.bench.firm(file)
    }

    fn remove(&mut self, file: &Name) -> Result<bool, Failed> {
        self.bench.remove(file)
    }

    ghost short = { λ b. tt };
}

/// A disk in memory of whose files nothing is told from now on, so passes over it owe nothing. A file that it is to adopt is put. `QuietDisk`
/// gives away no more than the file that was written last, and a pack gives two.
#[derive(Drop)]
pub struct UntoldDisk {
    disk: MemDisk,
    has_lost: bool,
}

impl UntoldDisk {
    /// This disk, of which nothing is told from now on.
    pub fn new(disk: MemDisk) -> UntoldDisk {
        UntoldDisk {
            disk,
            has_lost: false,
        }
    }

    /// Whether a file was gone as it was to get a name.
    pub fn has_lost(&self) -> bool {
        self.has_lost
    }

    /// The disk again.
    pub fn into_disk(self) -> MemDisk {
        let UntoldDisk { disk, .. } = self;
        disk
    }
}

impl Disk for UntoldDisk {
    ghost use Rattle.std.specs.Prelude.{None, refl, true};

    type Bench = UntoldBench;

    ghost trace = { λ d. None };

    ghost mount_path = { λ d. ⟦<MemDisk as Disk>⟧.mount_path d.disk };

    ghost may_write = { λ d. true };

    ghost faults = { λ d. ⟦<MemDisk as Disk>⟧.faults d.disk };

    ghost bench_faults = { λ d. ⟦<MemDisk as Disk>⟧.bench_faults d.disk };

    fn read(
        &mut self,
        name: &Name,
        offset: u64,
        buffer: &mut [u8],
    ) -> Result<Option<usize>, Failed> {
        self.disk.read(name, offset, buffer)
    }

    fn size(&mut self, name: &Name) -> Result<Option<u64>, Failed> {
        self.disk.size(name)
    }

    fn put(&mut self, name: &Name, bytes: &[u8]) -> Result<(), Failed> {
        self.disk.put(name, bytes)
    }

    fn rename(&mut self, from: &Name, to: &Name) -> Result<(), Failed> {
        match self.disk.size(from) {
            Ok(Some(_)) => self.disk.rename(from, to),
            Ok(None) => {
                self.has_lost = true;
                Ok(())
            }
            Err(failed) => Err(failed),
        }
    }

    fn remove(&mut self, name: &Name) -> Result<bool, Failed> {
        self.disk.remove(name)
    }

    fn firm_names(&mut self) -> Result<(), Failed> {
        self.disk.firm_names()
    }

    fn make_folder(&mut self, name: &Name) -> Result<(), Failed> {
        self.disk.make_folder(name)
    }

    fn drop_folder(&mut self, name: &Name) -> Result<(), Failed> {
        self.disk.drop_folder(name)
    }

    fn list(&mut self, alloc: Global, folder: &Name) -> Result<Vec<Name>, ListFault> {
        self.disk.list(alloc, folder)
    }

    fn bench(&mut self, label: &Label) -> Result<UntoldBench, Failed> {
        match self.disk.bench(label) {
            Ok(bench) => Ok(UntoldBench { bench }),
            Err(failed) => Err(failed),
        }
    }

    // The trait's clauses, which the check doesn't hand on to a method that takes an `Option` of an associated type.
    fn drop_bench(&mut self, label: &Label, bench: Option<UntoldBench>) -> Result<bool, Failed>
        ensures there { Unit {0} }
        ensures ok { IfOk result (λ there. PerformsIfThere there (DropLabel (label_of label.now)) None None) }
        ensures err { OnErr result (FailsAt (DropLabel (label_of label.now)) None None) }
        ensures mounted { ⟦<MemDisk as Disk>⟧.mount_path self.new.disk ≡ ⟦<MemDisk as Disk>⟧.mount_path self.old.disk }
        ensures right { true ≡ true }
        ensures benches { MatchOption bench (⟦<MemDisk as Disk>⟧.bench_faults self.new.disk ≡ ⟦<MemDisk as Disk>⟧.bench_faults self.old.disk) (λ b. ⟦<MemDisk as Disk>⟧.bench_faults self.new.disk ≡ added_count (⟦<MemDisk as Disk>⟧.bench_faults self.old.disk) (⟦<MemBench as Bench>⟧.faults b.bench)) }
        ensures cause { HasCause (⟦<MemDisk as Disk>⟧.faults self.old.disk) (⟦<MemDisk as Disk>⟧.faults self.new.disk) result }
    {
        match bench {
            Some(UntoldBench { bench }) => self.disk.drop_bench(label, Some(bench)),
            None => self.disk.drop_bench(label, None),
        }
    }

    fn adopt(&mut self, bench: &mut UntoldBench, file: &Name, to: &Name) -> Result<(), Failed> {
        match bench.bench.file(file) {
            Some(bytes) => self.disk.put(to, bytes)?,
            None => self.has_lost = true,
        }
        bench.bench.forget(file);
        Ok(())
    }

    ghost short = { λ d. tt };

    ghost benches_tell = { λ d b. refl };
}
