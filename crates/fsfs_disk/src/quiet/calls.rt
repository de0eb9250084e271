//! The calls of a disk that tells nothing, and of its benches.
ghost use Rattle.std.specs.Prelude.{◌≡◌, None, Some, IfOk, OnErr, MatchOption, IsTrue};
ghost use Rattle.fsfs_base.specs.Failures.{HasCause, added_count};
ghost use Rattle.fsfs_disk.specs.Benches.{IsFirmFile};
ghost use Rattle.fsfs_disk.specs.Labels.{label_of};
ghost use Rattle.fsfs_disk.specs.Trace.{DropLabel, PerformsIfThere, FailsAt};

use crate::quiet::bench::QuietBench;
use crate::quiet::disk::QuietDisk;
use crate::{Bench, Disk, Label, ListFault};
use fsfs_base::{Failed, Name};
use std::alloc::Global;

impl<B: Bench> QuietBench<B> {
    /// This bench, which tells nothing from now on.
    pub(crate) fn new(bench: B) -> QuietBench<B>
        ensures { result.bench ≡ bench }
    {
        QuietBench {
            bench,
            last: None,
            is_firm: false,
        }
    }

    /// The bench again.
    pub(crate) fn into_bench(self) -> B
        ensures { result ≡ self.bench }
    {
        let QuietBench { bench, .. } = self;
        bench
    }

    // Whether this file was written last.
    fn wrote(&self, file: &Name) -> bool
        ensures { IsTrue result → self.now.last ≡ Some file.now }
    {
        match &self.last {
            Some(name) => name.is(file),
            None => false,
        }
    }

    // Whether it knows that this file is there and firm.
    pub(crate) fn has_firm(&self, file: &Name) -> bool
        ensures { IsTrue result → IsFirmFile (B.contents self.now.bench) (B.firm_to self.now.bench file.now) file.now }
    {
        self.is_firm && self.wrote(file)
    }
}

impl<B: Bench> Bench for QuietBench<B> {
    ghost use Rattle.std.specs.Prelude.{None};

    ghost contents = { λ b. None };

    ghost firm_to = { λ b name. 0 };

    ghost faults = { λ b. B.faults b.bench };

    fn append(&mut self, file: &Name, bytes: &[u8]) -> Result<(), Failed> {
        self.last = None;
        self.is_firm = false;
        match self.bench.append(file, bytes) {
            Ok(()) => {
                self.last = Some(file.copy());
                Ok(())
            }
            Err(failed) => Err(failed),
        }
    }

    fn write(&mut self, file: &Name, bytes: &[u8]) -> Result<(), Failed> {
        self.last = None;
        self.is_firm = false;
        match self.bench.write(file, bytes) {
            Ok(()) => {
                self.last = Some(file.copy());
                Ok(())
            }
            Err(failed) => Err(failed),
        }
    }

    fn read(
        &mut self,
        file: &Name,
        offset: u64,
        buffer: &mut [u8],
    ) -> Result<Option<usize>, Failed> {
        self.bench.read(file, offset, buffer)
    }

    fn len(&mut self, file: &Name) -> Result<Option<u64>, Failed> {
        self.bench.len(file)
    }

    fn firm(&mut self, file: &Name) -> Result<(), Failed> {
        let is_last = self.wrote(file);
        match self.bench.firm(file) {
            Ok(()) if is_last => {
                self.is_firm = true;
                Ok(())
            }
            other => {
                self.last = None;
                other
            }
        }
    }

    fn remove(&mut self, file: &Name) -> Result<bool, Failed> {
        self.last = None;
        self.bench.remove(file)
    }

    ghost short = { λ b. tt };
}

impl<D: Disk> Disk for QuietDisk<D> {
    ghost use Rattle.std.specs.Prelude.{None, refl};

    type Bench = QuietBench<D::Bench>;

    ghost trace = { λ d. None };

    ghost mount_path = { λ d. D.mount_path d.disk };

    ghost may_write = { λ d. D.may_write d.disk };

    ghost faults = { λ d. D.faults d.disk };

    ghost bench_faults = { λ d. D.bench_faults d.disk };

    fn read(
        &mut self,
        name: &Name,
        offset: u64,
        buffer: &mut [u8],
    ) -> Result<Option<usize>, Failed> {
        self.disk.read(name, offset, buffer)
    }

    fn size(&mut self, name: &Name) -> Result<Option<u64>, Failed> {
        self.disk.size(name)
    }

    fn put(&mut self, name: &Name, bytes: &[u8]) -> Result<(), Failed> {
        self.disk.put(name, bytes)
    }

    // Where the file is gone nothing is done. The count of faults is the disk's own, so no failure is told of it; whoever has the disk sees it noted.
    fn rename(&mut self, from: &Name, to: &Name) -> Result<(), Failed> {
        match self.disk.size(from) {
            Ok(Some(_)) => self.disk.rename(from, to),
            Ok(None) => {
                self.has_lost = true;
                Ok(())
            }
            Err(failed) => Err(failed),
        }
    }

    fn remove(&mut self, name: &Name) -> Result<bool, Failed> {
        self.disk.remove(name)
    }

    fn firm_names(&mut self) -> Result<(), Failed> {
        self.disk.firm_names()
    }

    fn make_folder(&mut self, name: &Name) -> Result<(), Failed> {
        self.disk.make_folder(name)
    }

    fn drop_folder(&mut self, name: &Name) -> Result<(), Failed> {
        self.disk.drop_folder(name)
    }

    fn list(&mut self, alloc: Global, folder: &Name) -> Result<Vec<Name>, ListFault> {
        self.disk.list(alloc, folder)
    }

    fn bench(&mut self, label: &Label) -> Result<QuietBench<D::Bench>, Failed> {
        match self.disk.bench(label) {
            Ok(bench) => Ok(QuietBench::new(bench)),
            Err(failed) => Err(failed),
        }
    }

    // The trait's clauses, which the check doesn't hand on to a method that takes an `Option` of an associated type.
    fn drop_bench(
        &mut self,
        label: &Label,
        bench: Option<QuietBench<D::Bench>>,
    ) -> Result<bool, Failed>
        requires { IsTrue (D.may_write self.old.disk) }
        ensures there { Unit {0} }
        ensures ok { IfOk result (λ there. PerformsIfThere there (DropLabel (label_of label.now)) None None) }
        ensures err { OnErr result (FailsAt (DropLabel (label_of label.now)) None None) }
        ensures mounted { D.mount_path self.new.disk ≡ D.mount_path self.old.disk }
        ensures right { D.may_write self.new.disk ≡ D.may_write self.old.disk }
        ensures benches { MatchOption bench (D.bench_faults self.new.disk ≡ D.bench_faults self.old.disk) (λ b. D.bench_faults self.new.disk ≡ added_count (D.bench_faults self.old.disk) (D.Bench.faults b.bench)) }
        ensures cause { HasCause (D.faults self.old.disk) (D.faults self.new.disk) result }
    {
        match bench {
            Some(bench) => self.disk.drop_bench(label, Some(bench.into_bench())),
            None => self.disk.drop_bench(label, None),
        }
    }

    // A file that isn't known to be firm isn't given away, as one that is gone.
    fn adopt(
        &mut self,
        bench: &mut QuietBench<D::Bench>,
        file: &Name,
        to: &Name,
    ) -> Result<(), Failed> {
        if !bench.has_firm(file) {
            self.has_lost = true;
            return Ok(());
        }
        let done = self.disk.adopt(&mut bench.bench, file, to);
        bench.last = None;
        done
    }

    ghost short = { λ d. tt };

    ghost benches_tell = { λ d b. refl };
}
