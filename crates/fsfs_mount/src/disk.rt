// The files of a repository in a folder, over the calls of the system, as a disk.
ghost use Rattle.std.specs.Prelude.{◌≡◌, [], IfOk, IfSome, IsErr, OnErr, MatchOption, string_bytes, true};
ghost use Rattle.fsfs_base.specs.Failures.{HasCause, added_count};
ghost use Rattle.fsfs_disk.specs.Labels.{label_of, has_label};
ghost use Rattle.fsfs_disk.specs.Trace.{DropLabel, labels_now, PerformsIfThere, FailsAt};
ghost use Rattle.fsfs_folders.specs.Standing.{told};
ghost use Rattle.fsfs_folders.specs.Told.{LeavesImages};
ghost use Rattle.fsfs_folders.specs.Keeping.{are_rooted};
ghost use Rattle.fsfs_mount.specs.OpenFiles.{AreStill};

use crate::found::Found;
use crate::open_files::OpenFiles;
use fsfs_base::{Failed, Name, counted};
use fsfs_disk::{Disk, Label, ListFault};
use fsfs_folders::{CallError, Calls, FolderBench, Folders};
use std::alloc::Global;

/// The files of a repository below a folder, over the calls of the system. It tells the operations that its calls come to.
///
/// `put` writes a file beside the name, makes it firm and renames it. `firm_names` syncs each folder in which a name changed since
/// the last one. A bench is the folder of its label, with calls of its own, and a transaction's its prototype revision file too; its
/// label is that the folder is there.
///
/// Where a mount was to change a repository and found none, each change fails: nothing is locked there.
///
/// The files that were read last stay open: a read of one of them that doesn't begin at its beginning costs no call but the read, nor does
/// one from the beginning right behind its size. Each call but reads and sizes closes them.
#[derive(Drop)]
pub struct FolderDisk<C: Calls + Drop> {
    alloc: Global,
    folders: Folders<C>,
    open_files: OpenFiles<C>,
    found: Found,
    path: String,
    writes: bool,
    faults: u64,
    bench_faults: u64,
    ghost still: { AreStill open_files.last open_files.others.items (λ opened. opened.name) (λ opened. C.File.OpenFile.number opened.file) (C.Calls.history folders.calls) },
}

impl<C: Calls + Drop> FolderDisk<C> {
    /// The disk of a path over calls that begin, in a folder where each file has its folders. `writes`: its files may be changed.
    pub fn new(alloc: Global, calls: C, path: String, writes: bool) -> FolderDisk<C>
        requires { IfSome (C.history calls) (λ r. (r.calls ≡ []) × (are_rooted r.first.folders r.first.files ≡ true)) }
        ensures told { told (C.history result.folders.calls) ≡ told (C.history calls) }
        ensures path { result.path ≡ path }
        ensures writes { result.writes ≡ writes }
        ensures faults { result.faults ≡ 0 }
        ensures bench_faults { result.bench_faults ≡ 0 }
    {
        let folders = Folders::new(alloc, calls);
        FolderDisk::over(alloc, folders, Found::Ready, path, writes)
    }

    /// The disk of a path over what stands there.
    pub(crate) fn over(
        alloc: Global,
        folders: Folders<C>,
        found: Found,
        path: String,
        writes: bool,
    ) -> FolderDisk<C>
        ensures folders { result.folders ≡ folders }
        ensures path { result.path ≡ path }
        ensures writes { result.writes ≡ writes }
        ensures faults { result.faults ≡ 0 }
        ensures bench_faults { result.bench_faults ≡ 0 }
    {
        FolderDisk {
            alloc,
            folders,
            open_files: OpenFiles::new(alloc),
            found,
            path,
            writes,
            faults: 0,
            bench_faults: 0,
        }
    }

    /// Its path, what stands there, and what its mount found there.
    pub(crate) fn into_parts(self) -> (String, Folders<C>, Found)
        ensures path { result.0 ≡ self.path }
        ensures folders { result.1 ≡ self.folders }
    {
        let FolderDisk {
            alloc: _,
            folders,
            open_files: _,
            found,
            path,
            writes: _,
            faults: _,
            bench_faults: _,
        } = self;
        (path, folders, found)
    }

    /// The calls that it stands on.
    pub fn calls(&self) -> &C
        ensures { result.now ≡ self.now.folders.calls }
    {
        self.folders.calls()
    }

    /// How often it has failed.
    pub fn faults(&self) -> u64
        ensures { result ≡ self.now.faults }
    {
        self.faults
    }

    /// How often the benches have failed that it took back.
    pub fn bench_faults(&self) -> u64
        ensures { result ≡ self.now.bench_faults }
    {
        self.bench_faults
    }

    // Refuses a change.
    fn refuse<T>(&mut self) -> Result<T, Failed>
        ensures cause { HasCause self.old.faults self.new.faults result }
        ensures folders { self.new.folders ≡ self.old.folders }
        ensures path { self.new.path ≡ self.old.path }
        ensures writes { self.new.writes ≡ self.old.writes }
        ensures benches { self.new.bench_faults ≡ self.old.bench_faults }
        ensures refused { IsErr result }
    {
        self.faults = self.faults.saturating_add(1);
        Err(Failed)
    }

    /// Whatever a crash may leave now of names and of bytes shows one of the images that the disk tells.
    pub fn leaves_images(&self)
        ensures { IfSome (C.history self.now.folders.calls) LeavesImages }
    {
        self.folders.leaves_images();
    }
}

impl<C: Calls + Drop> Disk for FolderDisk<C> {
    ghost use Rattle.fsfs_folders.specs.Standing.{told};
    ghost use Rattle.fsfs_folders.specs.Laws.{images_are_short, both_tell};
    ghost use Rattle.fsfs_folders.specs.Prototypes.{whole_tells};

    type Bench = FolderBench<C>;

    ghost trace = { λ disk. told (C.Calls.history disk.folders.calls) };

    ghost mount_path = { λ disk. string_bytes disk.path };

    ghost may_write = { λ disk. disk.writes };

    ghost faults = { λ disk. disk.faults };

    ghost bench_faults = { λ disk. disk.bench_faults };

    fn read(
        &mut self,
        name: &Name,
        offset: u64,
        buffer: &mut [u8],
    ) -> Result<Option<usize>, Failed> {
        let found = self
            .open_files
            .read(&mut self.folders, name, offset, buffer);
        counted(&mut self.faults, found)
    }

    fn size(&mut self, name: &Name) -> Result<Option<u64>, Failed> {
        let found = self.open_files.size(&mut self.folders, name);
        counted(&mut self.faults, found)
    }

    fn put(&mut self, name: &Name, bytes: &[u8]) -> Result<(), Failed> {
        self.open_files.close();
        if self.found.is_barred() {
            return self.refuse();
        }
        let done = self.folders.put(name, bytes);
        counted(&mut self.faults, done)
    }

    fn rename(&mut self, from: &Name, to: &Name) -> Result<(), Failed> {
        self.open_files.close();
        if self.found.is_barred() {
            return self.refuse();
        }
        let done = self.folders.rename(from, to);
        counted(&mut self.faults, done)
    }

    fn remove(&mut self, name: &Name) -> Result<bool, Failed> {
        self.open_files.close();
        if self.found.is_barred() {
            return self.refuse();
        }
        let was_there = self.folders.remove(name);
        counted(&mut self.faults, was_there)
    }

    fn firm_names(&mut self) -> Result<(), Failed> {
        self.open_files.close();
        let done = self.folders.firm_names();
        counted(&mut self.faults, done)
    }

    fn make_folder(&mut self, name: &Name) -> Result<(), Failed> {
        self.open_files.close();
        if self.found.is_barred() {
            return self.refuse();
        }
        let done = self.folders.make_folder(name);
        counted(&mut self.faults, done)
    }

    fn drop_folder(&mut self, name: &Name) -> Result<(), Failed> {
        self.open_files.close();
        if self.found.is_barred() {
            return self.refuse();
        }
        let done = self.folders.drop_folder(name);
        counted(&mut self.faults, done)
    }

    fn list(&mut self, alloc: Global, _folder: &Name) -> Result<Vec<Name>, ListFault> {
        self.open_files.close();
        match self.folders.txn_entries(alloc) {
            Ok(found) => Ok(found),
            Err(CallError::Memory) => Err(ListFault::Memory),
            Err(_) => {
                self.faults = self.faults.saturating_add(1);
                Err(ListFault::Failed)
            }
        }
    }

    fn bench(&mut self, label: &Label) -> Result<FolderBench<C>, Failed> {
        self.open_files.close();
        if self.found.is_barred() {
            return self.refuse();
        }
        let made = self.folders.bench(label);
        counted(&mut self.faults, made)
    }

    fn drop_bench(&mut self, label: &Label, bench: Option<FolderBench<C>>) -> Result<bool, Failed>
        ensures there { IfSome (told (C.history self.old.folders.calls)) (λ t. IfOk result (λ there. there ≡ has_label (label_of label.now) (labels_now t))) }
        ensures ok { IfOk result (λ there. PerformsIfThere there (DropLabel (label_of label.now)) (told (C.history self.old.folders.calls)) (told (C.history self.new.folders.calls))) }
        ensures err { OnErr result (FailsAt (DropLabel (label_of label.now)) (told (C.history self.old.folders.calls)) (told (C.history self.new.folders.calls))) }
        ensures mounted { string_bytes self.new.path ≡ string_bytes self.old.path }
        ensures right { self.new.writes ≡ self.old.writes }
        ensures benches { MatchOption bench (self.new.bench_faults ≡ self.old.bench_faults) (λ b. self.new.bench_faults ≡ added_count self.old.bench_faults b.faults) }
        ensures cause { HasCause self.old.faults self.new.faults result }
    {
        if let Some(bench) = bench {
            self.bench_faults = self.bench_faults.saturating_add(bench.faults());
        }
        self.open_files.close();
        if self.found.is_barred() {
            return self.refuse();
        }
        let was_there = self.folders.drop_bench(label);
        counted(&mut self.faults, was_there)
    }

    fn adopt(&mut self, bench: &mut FolderBench<C>, file: &Name, to: &Name) -> Result<(), Failed> {
        self.open_files.close();
        if self.found.is_barred() {
            return self.refuse();
        }
        let done = bench.give(&mut self.folders, file, to);
        counted(&mut self.faults, done)
    }

    ghost short = { λ disk. images_are_short (C.Calls.history disk.folders.calls) disk.folders.changed disk.folders.is_settled disk.folders.sound };

    ghost benches_tell = { λ disk bench. whole_tells bench.proto (λ p. C.Calls.history p.part.calls) (λ p. p.name) (C.Calls.history bench.files.calls) (told (C.Calls.history disk.folders.calls)) (both_tell (C.Calls.history disk.folders.calls) (C.Calls.history bench.files.calls) (C.Calls.all_tell bench.files.calls disk.folders.calls)) (λ p. both_tell (C.Calls.history disk.folders.calls) (C.Calls.history p.part.calls) (C.Calls.all_tell p.part.calls disk.folders.calls)) };
}
