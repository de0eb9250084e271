// A disk in memory. It keeps its operations, so that it can tell what a crash may leave.
ghost use Rattle.std.specs.Prelude.{◌≡◌, ◌≤◌, ◌+◌, ◌-◌, ◌^◌, min, length, vec_len, drop, map as each, OnOk, OnErr, IfOk, Some, None, MatchOption, string_bytes};
ghost use Rattle.std.specs.FinMap as map;
ghost use Rattle.fsfs_base.specs.Files.{Files};
ghost use Rattle.fsfs_base.specs.Failures.{HasCause, added_count};
ghost use Rattle.fsfs_disk.specs.Labels.{AreLeft, label_of, has_label};
ghost use Rattle.fsfs_disk.specs.Benches.{HasShortFiles};
ghost use Rattle.fsfs_disk.specs.Short.{IsShortChange};
ghost use Rattle.fsfs_disk.specs.Trace.{file_at, files_now, files_after, labels_now, labels_after, changed, relabelled, IsImage, Performs, PerformsIfThere, FailsAt, StaysAt, DropLabel};
ghost use Rattle.fsfs_disk.specs.Crash.{IsFirm};
ghost use Rattle.fsfs_memory.specs.Memdisk.PickedImage.{picked_image, picked_labels};
ghost use Rattle.fsfs_memory.specs.Memdisk.Stored.{operations_of, labels_of, change_of};

use crate::memdisk::bench::{LONGEST, MemBench};
use crate::memdisk::copying::copy_from;
use crate::memdisk::crash::{image, labels_left, picks_behind};
use crate::memdisk::files::MemFiles;
use crate::memdisk::labels::{is_kept, listing};
use crate::memdisk::operations::{MemChange, MemFile, MemOperation};
use fsfs_base::{Failed, Faults, Name};
use fsfs_disk::{Disk, Label, ListFault};
use std::alloc::{AllocError, Global};
use std::collections::VecDeque;

/// A disk in memory. It tells its trace, and can fail at calls that are chosen.
#[derive(Drop)]
pub struct MemDisk {
    alloc: Global,
    mount_path: String,
    // The files and labels that it began with, its operations since, the newest first, and the files and labels now.
    first: MemFiles,
    first_labels: VecDeque<Label>,
    operations: VecDeque<MemOperation>,
    files: MemFiles,
    labels: VecDeque<Label>,
    faults: Faults,
    // The calls of each bench that are to fail.
    bench_failing: Vec<u64>,
    bench_faults: u64,
    ghost present: { files ≡ files_after first (operations_of operations.items) },
    ghost kept: { labels_of labels.items ≡ labels_after (labels_of first_labels.items) (operations_of operations.items) },
    ghost short: { (m : Files) → IsImage first (operations_of operations.items) m → HasShortFiles m },
}

impl MemDisk {
    ghost use Rattle.fsfs_memory.specs.Memdisk.MemDisk.{trace_of, empty_trace};

    /// An empty disk.
    pub fn new(alloc: Global) -> MemDisk
        ensures trace { trace_of result ≡ empty_trace }
        ensures faults { result.faults.count ≡ 0 }
        ensures bench_faults { result.bench_faults ≡ 0 }
    {
        MemDisk::with_faults(alloc, Vec::new(alloc))
    }

    /// An empty disk whose calls with these numbers fail. The first call is 1.
    pub fn with_faults(alloc: Global, failing: Vec<u64>) -> MemDisk
        ensures trace { trace_of result ≡ empty_trace }
        ensures faults { result.faults.count ≡ 0 }
        ensures failing { result.faults.failing ≡ failing }
        ensures calls { result.faults.calls ≡ 0 }
        ensures bench_faults { result.bench_faults ≡ 0 }
    {
        MemDisk {
            alloc,
            mount_path: String::new(alloc),
            first: MemFiles::new(alloc),
            first_labels: VecDeque::new(alloc),
            operations: VecDeque::new(alloc),
            files: MemFiles::new(alloc),
            labels: VecDeque::new(alloc),
            faults: Faults::new(failing),
            bench_failing: Vec::new(alloc),
            bench_faults: 0,
        }
    }

    /// The same disk, of whose calls from now on these fail, and these of each bench that it makes; the first call is 1.
    pub fn failing(mut self, calls: Vec<u64>, bench_calls: Vec<u64>) -> MemDisk
        ensures trace { trace_of result ≡ trace_of self }
        ensures faults { result.faults.count ≡ 0 }
        ensures failing { result.faults.failing ≡ calls }
        ensures calls { result.faults.calls ≡ 0 }
        ensures bench_failing { result.bench_failing ≡ bench_calls }
        ensures bench_faults { result.bench_faults ≡ self.bench_faults }
        ensures mount_path { result.mount_path ≡ self.mount_path }
    {
        self.faults = Faults::new(calls);
        self.bench_failing = bench_calls;
        self
    }

    /// The same disk, of whose calls so many more may pass; each after them fails.
    pub fn fuse(mut self, passing: u64) -> MemDisk
        ensures trace { trace_of result ≡ trace_of self }
        ensures last { result.faults.last ≡ min (self.faults.calls + passing) (2 ^ 64 - 1) }
        ensures faults { result.faults.count ≡ self.faults.count }
        ensures bench_faults { result.bench_faults ≡ self.bench_faults }
        ensures mount_path { result.mount_path ≡ self.mount_path }
    {
        self.faults.fuse(passing);
        self
    }

    /// What a crash leaves: of the changes of names that aren't firm, and of the labels that are kept, those that are picked.
    /// `pick` has a place for each operation, the oldest of the trace first, and behind them one for each label, the one that
    /// was made first in front; what is past its end is not picked. No call of the result fails.
    pub fn crash(self, pick: &[bool]) -> Result<MemDisk, AllocError>
        ensures picked { IfOk result (λ d. files_now (trace_of d) ≡ picked_image pick.now (trace_of self).first (trace_of self).operations) }
        ensures labels { IfOk result (λ d. labels_now (trace_of d) ≡ picked_labels (drop (length (trace_of self).operations) pick.now) (labels_of self.labels.items)) }
        ensures image { IfOk result (λ d. IsImage (trace_of self).first (trace_of self).operations (files_now (trace_of d))) }
        ensures left { IfOk result (λ d. AreLeft (labels_now (trace_of self)) (labels_now (trace_of d))) }
        ensures firm { IfOk result (λ d. IsFirm (Some (trace_of d))) }
    {
        let MemDisk {
            alloc,
            mount_path,
            first,
            first_labels: _,
            operations,
            files: _,
            labels,
            faults: _,
            bench_failing: _,
            bench_faults: _,
        } = self;
        let behind = picks_behind(pick, operations.len());
        let first_labels = labels_left(alloc, &labels, behind)?;
        let labels = labels_left(alloc, &labels, behind)?;
        let files = image(first, operations, pick)?;
        Ok(MemDisk {
            alloc,
            mount_path,
            first: files.clone()?,
            first_labels,
            operations: VecDeque::new(alloc),
            files,
            labels,
            faults: Faults::new(Vec::new(alloc)),
            bench_failing: Vec::new(alloc),
            bench_faults: 0,
        })
    }

    /// The disk, kept for a path.
    pub fn mounted_at(mut self, mount_path: String) -> MemDisk
        ensures mount_path { string_bytes result.mount_path ≡ string_bytes mount_path }
        ensures trace { trace_of result ≡ trace_of self }
        ensures faults { result.faults ≡ self.faults }
        ensures bench_faults { result.bench_faults ≡ self.bench_faults }
    {
        self.mount_path = mount_path;
        self
    }

    /// The disk with its counts of faults begun anew.
    pub fn unfailed(mut self) -> MemDisk
        ensures trace { trace_of result ≡ trace_of self }
        ensures faults { result.faults.count ≡ 0 }
        ensures bench_faults { result.bench_faults ≡ 0 }
        ensures mount_path { result.mount_path ≡ self.mount_path }
    {
        self.faults.count = 0;
        self.bench_faults = 0;
        self
    }

    /// The path that it was mounted for.
    pub fn mount_path(&self) -> &str
        ensures { result.now ≡ string_bytes self.now.mount_path }
    {
        self.mount_path.as_str()
    }

    /// How often it has failed.
    pub fn faults(&self) -> u64
        ensures { result ≡ self.now.faults.count }
    {
        self.faults.count
    }

    /// How often the benches have failed that it took back.
    pub fn bench_faults(&self) -> u64
        ensures { result ≡ self.now.bench_faults }
    {
        self.bench_faults
    }

    /// How many calls there were. A call that finds no memory for what it is to keep, or that is given more than a file may hold,
    /// is not counted.
    pub fn calls(&self) -> u64
        ensures { result ≡ self.now.faults.calls }
    {
        self.faults.calls()
    }

    /// The bytes of a file.
    pub fn file(&self, name: &Name) -> Option<&[u8]>
        ensures { MatchOption result (file_at (trace_of self.now) name.now ≡ None) (λ b. file_at (trace_of self.now) name.now ≡ Some b.now) }
    {
        self.files.get(name)
    }

    /// All names and the bytes of their files, in the order of the names.
    pub fn files(&self, alloc: Global) -> Result<Vec<(&str, &[u8])>, AllocError>
        ensures { IfOk result (λ files. each (λ file. (file.0.now, file.1.now)) files.items ≡ map.entries (files_now (trace_of self.now))) }
    {
        self.files.list(alloc)
    }

    /// The labels that are kept, the one that was made first in front.
    pub fn labels(&self) -> &VecDeque<Label>
        ensures { labels_of result.now.items ≡ labels_now (trace_of self.now) }
    {
        &self.labels
    }

    // Does a change, or fails at it.
    fn perform(&mut self, change: MemChange) -> Result<(), Failed>
        requires { IsShortChange (change_of change) }
        ensures ok { OnOk result (Performs (change_of change) (Some (trace_of self.old)) (Some (trace_of self.new))) }
        ensures err { OnErr result (FailsAt (change_of change) (Some (trace_of self.old)) (Some (trace_of self.new))) }
        ensures stays { OnErr result (StaysAt (change_of change) (Some (trace_of self.old)) (Some (trace_of self.new))) }
        ensures cause { HasCause self.old.faults.count self.new.faults.count result }
        ensures mount_path { self.new.mount_path ≡ self.old.mount_path }
        ensures bench_faults { self.new.bench_faults ≡ self.old.bench_faults }
    {
        if self.operations.reserve(1).is_err() {
            return Err(self.faults.fail());
        }
        let result = attempt(
            self.alloc,
            &mut self.faults,
            &change,
            &mut self.files,
            &mut self.labels,
        );
        let done = result.is_ok();
        // There is room for it.
        self.operations
            .push_front(MemOperation { done, change })
            .unwrap();
        result
    }
}

// Makes a change of these files and labels, unless this call is to fail.
fn attempt(
    alloc: Global,
    faults: &mut Faults,
    change: &MemChange,
    files: &mut MemFiles,
    labels: &mut VecDeque<Label>,
) -> Result<(), Failed>
    ensures ok { OnOk result (files.new ≡ changed (change_of change.now) files.old) }
    ensures ok_labels { OnOk result (labels_of labels.new.items ≡ relabelled (change_of change.now) (labels_of labels.old.items)) }
    ensures err { OnErr result (files.new ≡ files.old) }
    ensures err_labels { OnErr result (labels_of labels.new.items ≡ labels_of labels.old.items) }
    ensures cause { HasCause faults.old.count faults.new.count result }
{
    faults.call()?;
    let Ok(relabelled) = change.relabel(alloc, labels) else {
        return Err(faults.fail());
    };
    if change.apply(files).is_err() {
        return Err(faults.fail());
    }
    if let Some(new) = relabelled {
        *labels = new;
    }
    Ok(())
}

impl Disk for MemDisk {
    type Bench = MemBench;

    ghost use Rattle.std.specs.Prelude.{Some, string_bytes, true};
    ghost use Rattle.fsfs_memory.specs.Memdisk.MemDisk.{trace_of};

    ghost trace = { λ d. Some (trace_of d) };

    ghost mount_path = { λ d. string_bytes d.mount_path };

    // In memory there is no lock to hold.
    ghost may_write = { λ _. true };

    ghost faults = { λ d. d.faults.count };

    ghost bench_faults = { λ d. d.bench_faults };

    fn read(
        &mut self,
        name: &Name,
        offset: u64,
        buffer: &mut [u8],
    ) -> Result<Option<usize>, Failed> {
        self.faults.call()?;
        match self.file(name) {
            None => Ok(None),
            Some(bytes) => Ok(Some(copy_from(bytes, offset, buffer))),
        }
    }

    fn size(&mut self, name: &Name) -> Result<Option<u64>, Failed> {
        self.faults.call()?;
        match self.file(name) {
            None => Ok(None),
            Some(bytes) => Ok(Some(bytes.len() as u64)),
        }
    }

    fn put(&mut self, name: &Name, bytes: &[u8]) -> Result<(), Failed> {
        if LONGEST < bytes.len() {
            return Err(self.faults.fail());
        }
        match MemFile::new(self.alloc, name, bytes) {
            Ok(file) => self.perform(MemChange::Put(file)),
            Err(_) => Err(self.faults.fail()),
        }
    }

    fn rename(&mut self, from: &Name, to: &Name) -> Result<(), Failed> {
        self.perform(MemChange::Rename(from.copy(), to.copy()))
    }

    fn remove(&mut self, name: &Name) -> Result<bool, Failed> {
        if self.file(name).is_some() {
            self.perform(MemChange::Remove(name.copy()))?;
            return Ok(true);
        }
        self.faults.call()?;
        Ok(false)
    }

    fn firm_names(&mut self) -> Result<(), Failed> {
        self.perform(MemChange::FirmNames)
    }

    fn make_folder(&mut self, _name: &Name) -> Result<(), Failed> {
        self.faults.call()
    }

    fn drop_folder(&mut self, _name: &Name) -> Result<(), Failed> {
        self.faults.call()
    }

    fn list(&mut self, alloc: Global, _folder: &Name) -> Result<Vec<Name>, ListFault> {
        if self.faults.call().is_err() {
            return Err(ListFault::Failed);
        }
        match listing(alloc, &self.labels) {
            Ok(names) => Ok(names),
            Err(_) => Err(ListFault::Memory),
        }
    }

    fn bench(&mut self, label: &Label) -> Result<MemBench, Failed> {
        let Ok(bench) = MemBench::new(self.alloc, &self.bench_failing) else {
            return Err(self.faults.fail());
        };
        self.perform(MemChange::KeepLabel(*label))?;
        Ok(bench)
    }

    // The trait's clauses, which the check doesn't hand on to a method that takes an `Option` of an associated type.
    fn drop_bench(&mut self, label: &Label, bench: Option<MemBench>) -> Result<bool, Failed>
        ensures there { IfOk result (λ there. there ≡ has_label (label_of label.now) (labels_now (trace_of self.old))) }
        ensures ok { IfOk result (λ there. PerformsIfThere there (DropLabel (label_of label.now)) (Some (trace_of self.old)) (Some (trace_of self.new))) }
        ensures err { OnErr result (FailsAt (DropLabel (label_of label.now)) (Some (trace_of self.old)) (Some (trace_of self.new))) }
        ensures mounted { string_bytes self.new.mount_path ≡ string_bytes self.old.mount_path }
        ensures right { true ≡ true }
        ensures benches { MatchOption bench (self.new.bench_faults ≡ self.old.bench_faults) (λ b. self.new.bench_faults ≡ added_count self.old.bench_faults b.faults.count) }
        ensures cause { HasCause self.old.faults.count self.new.faults.count result }
    {
        if let Some(bench) = bench {
            self.bench_faults = self.bench_faults.saturating_add(bench.faults());
        }
        if is_kept(&self.labels, label) {
            self.perform(MemChange::DropLabel(*label))?;
            return Ok(true);
        }
        self.faults.call()?;
        Ok(false)
    }

    fn adopt(&mut self, bench: &mut MemBench, file: &Name, to: &Name) -> Result<(), Failed> {
        let Some(bytes) = bench.file(file) else {
            return Err(self.faults.fail());
        };
        let Ok(adopted) = MemFile::new(self.alloc, to, bytes) else {
            return Err(self.faults.fail());
        };
        self.perform(MemChange::Adopt(adopted))?;
        bench.forget(file);
        Ok(())
    }

    ghost short = { λ d. d.short };

    ghost benches_tell = { λ d b. Rattle.std.specs.Prelude.refl };
}
