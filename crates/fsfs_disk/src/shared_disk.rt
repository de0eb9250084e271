//! A disk that may be written, with whether its last call failed.
ghost use Rattle.std.specs.Prelude.{◌≡◌, ◌≢◌, ◌≤◌, ℕ, List, codes, length, false, is_err, option_map, IfOk, IfSome, OnOk, OnErr, IsErrOf, IsSome, IsTrue, MatchOption};
ghost use Rattle.std.specs.FinMap.{empty};
ghost use Rattle.fsfs_base.specs.Failures.{HasCause, Rose, added_count};
ghost use Rattle.fsfs_disk.specs.Labels.{label_of, has_label, IsListing};
ghost use Rattle.fsfs_disk.specs.Benches.{removed, bytes_on, IsFirmFile, HasShortFiles};
ghost use Rattle.fsfs_disk.specs.Trace.{Put, Adopt, Rename, Remove, FirmNames, KeepLabel, DropLabel, file_at, files_now, labels_now, Performs, FailsAt, FailsToPut, FailsToAdopt, IsRead, IsSize, IsThere, PerformsIfThere};

use crate::{Disk, Label, ListFault};
use fsfs_base::{Failed, Name};
use std::alloc::Global;
use std::marker::Model;

/// A disk that may be written, as it goes from pass to pass. Whoever has it makes the calls of a disk; whether the last one failed
/// stays with it.
#[derive(Drop)]
pub struct SharedDisk<D: Disk> {
    disk: D,
    failed: bool,
}

impl<D: Disk> Model for SharedDisk<D> {
    ghost use Rattle.std.specs.Prelude.{IsTrue};
    ghost use Rattle.fsfs_disk.specs.Seen.{DiskSeen};
    ghost use Rattle.fsfs_disk.specs.Codes.{coded_seen};

    ghost Value = { DiskSeen };

    ghost coded = { coded_seen };

    ghost view = { λ s. record { mount_path = D.mount_path s.disk; trace = D.trace s.disk; faults = D.faults s.disk; bench_faults = D.bench_faults s.disk; failed = s.failed } };

    ghost invariant = { λ s. IsTrue (D.may_write s.disk) };
}

impl<D: Disk> SharedDisk<D> {
    /// This disk, of which no call failed.
    pub fn new(disk: D) -> SharedDisk<D>
        requires { IsTrue (D.may_write disk) }
        ensures { result ≡ record { mount_path = D.mount_path disk; trace = D.trace disk; faults = D.faults disk; bench_faults = D.bench_faults disk; failed = false } }
    {
        SharedDisk {
            disk,
            failed: false,
        }
    }

    /// The disk again.
    pub fn into_disk(self) -> D
        ensures told { (D.mount_path result ≡ self.mount_path) × (D.trace result ≡ self.trace) × (D.faults result ≡ self.faults) × (D.bench_faults result ≡ self.bench_faults) }
        ensures right { IsTrue (D.may_write result) }
    {
        let SharedDisk { disk, failed: _ } = self;
        disk
    }

    /// No file that it tells of is longer than 2^62 bytes. It does nothing.
    pub fn files_are_short(&self)
        ensures { IfSome self.now.trace (λ t. HasShortFiles (files_now t)) }
    {
        let _disk = &self.disk;
    }

    /// Fills the buffer from an offset on, as far as the file goes. `None`: there is no such file.
    pub fn read(
        &mut self,
        name: &Name,
        offset: u64,
        buffer: &mut [u8],
    ) -> Result<Option<usize>, Failed>
        ensures bound { IfOk result (λ found. IfSome found (λ n. n ≤ length buffer.new)) }
        ensures bytes { IfSome self.old.trace (λ t. IfOk result (IsRead (file_at t name.now) offset buffer.old buffer.new)) }
        ensures same { self.new.trace ≡ self.old.trace }
        ensures mounted { self.new.mount_path ≡ self.old.mount_path }
        ensures benches { self.new.bench_faults ≡ self.old.bench_faults }
        ensures flag { self.new.failed ≡ is_err result }
        ensures cause { HasCause self.old.faults self.new.faults result }
    {
        let answer = self.disk.read(name, offset, buffer);
        self.failed = answer.is_err();
        answer
    }

    /// The length of a file. `None`: there is no such file.
    pub fn size(&mut self, name: &Name) -> Result<Option<u64>, Failed>
        ensures length { IfSome self.old.trace (λ t. IfOk result (IsSize (file_at t name.now))) }
        ensures same { self.new.trace ≡ self.old.trace }
        ensures mounted { self.new.mount_path ≡ self.old.mount_path }
        ensures benches { self.new.bench_faults ≡ self.old.bench_faults }
        ensures flag { self.new.failed ≡ is_err result }
        ensures cause { HasCause self.old.faults self.new.faults result }
    {
        let answer = self.disk.size(name);
        self.failed = answer.is_err();
        answer
    }

    /// Makes a new file of these bytes, firm, and gives it the name.
    pub fn put(&mut self, name: &Name, bytes: &[u8]) -> Result<(), Failed>
        ensures ok { OnOk result (Performs (Put name.now bytes.now) self.old.trace self.new.trace) }
        ensures err { OnErr result (FailsToPut name.now bytes.now self.old.trace self.new.trace) }
        ensures mounted { self.new.mount_path ≡ self.old.mount_path }
        ensures benches { self.new.bench_faults ≡ self.old.bench_faults }
        ensures flag { self.new.failed ≡ is_err result }
        ensures cause { HasCause self.old.faults self.new.faults result }
    {
        let answer = self.disk.put(name, bytes);
        self.failed = answer.is_err();
        answer
    }

    /// Gives a file another name, by one change.
    pub fn rename(&mut self, from: &Name, to: &Name) -> Result<(), Failed>
        requires { IfSome self.old.trace (λ t. IsSome (file_at t from.now)) }
        ensures ok { OnOk result (Performs (Rename from.now to.now) self.old.trace self.new.trace) }
        ensures err { OnErr result (FailsAt (Rename from.now to.now) self.old.trace self.new.trace) }
        ensures mounted { self.new.mount_path ≡ self.old.mount_path }
        ensures benches { self.new.bench_faults ≡ self.old.bench_faults }
        ensures flag { self.new.failed ≡ is_err result }
        ensures cause { HasCause self.old.faults self.new.faults result }
    {
        let answer = self.disk.rename(from, to);
        self.failed = answer.is_err();
        answer
    }

    /// Makes all changes of names firm.
    pub fn firm_names(&mut self) -> Result<(), Failed>
        ensures ok { OnOk result (Performs FirmNames self.old.trace self.new.trace) }
        ensures err { OnErr result (FailsAt FirmNames self.old.trace self.new.trace) }
        ensures mounted { self.new.mount_path ≡ self.old.mount_path }
        ensures benches { self.new.bench_faults ≡ self.old.bench_faults }
        ensures flag { self.new.failed ≡ is_err result }
        ensures cause { HasCause self.old.faults self.new.faults result }
    {
        let answer = self.disk.firm_names();
        self.failed = answer.is_err();
        answer
    }

    /// Makes a folder and those above it.
    pub fn make_folder(&mut self, name: &Name) -> Result<(), Failed>
        ensures same { self.new.trace ≡ self.old.trace }
        ensures mounted { self.new.mount_path ≡ self.old.mount_path }
        ensures benches { self.new.bench_faults ≡ self.old.bench_faults }
        ensures flag { self.new.failed ≡ is_err result }
        ensures cause { HasCause self.old.faults self.new.faults result }
    {
        let answer = self.disk.make_folder(name);
        self.failed = answer.is_err();
        answer
    }

    /// The names next below the folder of transactions, in the order of their bytes.
    pub fn list(&mut self, alloc: Global, folder: &Name) -> Result<Vec<Name>, ListFault>
        requires { folder.now ≡ codes "db/transactions" }
        ensures names { IfSome self.old.trace (λ t. IfOk result (λ found. IsListing (labels_now t) found.items)) }
        ensures same { self.new.trace ≡ self.old.trace }
        ensures mounted { self.new.mount_path ≡ self.old.mount_path }
        ensures benches { self.new.bench_faults ≡ self.old.bench_faults }
        ensures flag { self.new.failed ≡ is_err result }
        ensures later { self.old.faults ≤ self.new.faults }
        ensures kept { OnOk result (self.new.faults ≡ self.old.faults) }
        ensures rose { IsErrOf result ListFault.Failed → Rose self.old.faults self.new.faults }
        ensures wanting { IsErrOf result ListFault.Memory → self.new.faults ≡ self.old.faults }
    {
        let answer = self.disk.list(alloc, folder);
        self.failed = answer.is_err();
        answer
    }

    /// Keeps a label, and makes an empty bench for it.
    pub fn bench(&mut self, label: &Label) -> Result<D::Bench, Failed>
        ensures ok { OnOk result (Performs (KeepLabel (label_of label.now)) self.old.trace self.new.trace) }
        ensures err { OnErr result (FailsAt (KeepLabel (label_of label.now)) self.old.trace self.new.trace) }
        ensures empty { IfOk result (λ bench. D.Bench.contents bench ≡ option_map (λ _. empty) self.old.trace) }
        ensures new { IfOk result (λ bench. D.Bench.faults bench ≡ 0) }
        ensures mounted { self.new.mount_path ≡ self.old.mount_path }
        ensures benches { self.new.bench_faults ≡ self.old.bench_faults }
        ensures flag { self.new.failed ≡ is_err result }
        ensures cause { HasCause self.old.faults self.new.faults result }
    {
        let answer = self.disk.bench(label);
        self.failed = answer.is_err();
        answer
    }

    /// Drops what a label's bench holds, and then the label. `false`: the label isn't kept. The bench's faults are added to the count of benches.
    pub fn drop_bench(&mut self, label: &Label, bench: Option<D::Bench>) -> Result<bool, Failed>
        ensures there { IfSome self.old.trace (λ t. IfOk result (λ there. there ≡ has_label (label_of label.now) (labels_now t))) }
        ensures ok { IfOk result (λ there. PerformsIfThere there (DropLabel (label_of label.now)) self.old.trace self.new.trace) }
        ensures err { OnErr result (FailsAt (DropLabel (label_of label.now)) self.old.trace self.new.trace) }
        ensures mounted { self.new.mount_path ≡ self.old.mount_path }
        ensures benches { MatchOption bench (self.new.bench_faults ≡ self.old.bench_faults) (λ b. self.new.bench_faults ≡ added_count self.old.bench_faults (D.Bench.faults b)) }
        ensures flag { self.new.failed ≡ is_err result }
        ensures cause { HasCause self.old.faults self.new.faults result }
    {
        let answer = self.disk.drop_bench(label, bench);
        self.failed = answer.is_err();
        answer
    }

    /// Gives a firm file of a bench a name here, by one change. The bench has it no more.
    pub fn adopt(&mut self, bench: &mut D::Bench, file: &Name, to: &Name) -> Result<(), Failed>
        requires { IsFirmFile (D.Bench.contents bench.old) (D.Bench.firm_to bench.old file.now) file.now }
        ensures ok { OnOk result (Performs (Adopt to.now (bytes_on (D.Bench.contents bench.old) file.now)) self.old.trace self.new.trace) }
        ensures err { OnErr result (FailsToAdopt (Adopt to.now (bytes_on (D.Bench.contents bench.old) file.now)) self.old.trace self.new.trace (removed file.now) (D.Bench.contents bench.old) (D.Bench.contents bench.new)) }
        ensures gone { OnOk result (D.Bench.contents bench.new ≡ option_map (removed file.now) (D.Bench.contents bench.old)) }
        ensures others { (q : List ℕ) → q ≢ file.now → D.Bench.firm_to bench.new q ≡ D.Bench.firm_to bench.old q }
        ensures bench_same { D.Bench.faults bench.new ≡ D.Bench.faults bench.old }
        ensures mounted { self.new.mount_path ≡ self.old.mount_path }
        ensures benches { self.new.bench_faults ≡ self.old.bench_faults }
        ensures flag { self.new.failed ≡ is_err result }
        ensures cause { HasCause self.old.faults self.new.faults result }
    {
        let answer = self.disk.adopt(bench, file, to);
        self.failed = answer.is_err();
        answer
    }

    /// Takes a file away. `false`: there is no such file.
    pub fn remove(&mut self, name: &Name) -> Result<bool, Failed>
        ensures there { IfSome self.old.trace (λ t. IfOk result (IsThere (file_at t name.now))) }
        ensures ok { IfOk result (λ there. PerformsIfThere there (Remove name.now) self.old.trace self.new.trace) }
        ensures err { OnErr result (FailsAt (Remove name.now) self.old.trace self.new.trace) }
        ensures mounted { self.new.mount_path ≡ self.old.mount_path }
        ensures benches { self.new.bench_faults ≡ self.old.bench_faults }
        ensures flag { self.new.failed ≡ is_err result }
        ensures cause { HasCause self.old.faults self.new.faults result }
    {
        let answer = self.disk.remove(name);
        self.failed = answer.is_err();
        answer
    }

    /// Drops a folder that is empty. No file changes by it.
    pub fn drop_folder(&mut self, name: &Name) -> Result<(), Failed>
        ensures same { self.new.trace ≡ self.old.trace }
        ensures mounted { self.new.mount_path ≡ self.old.mount_path }
        ensures benches { self.new.bench_faults ≡ self.old.bench_faults }
        ensures flag { self.new.failed ≡ is_err result }
        ensures cause { HasCause self.old.faults self.new.faults result }
    {
        let answer = self.disk.drop_folder(name);
        self.failed = answer.is_err();
        answer
    }
}
