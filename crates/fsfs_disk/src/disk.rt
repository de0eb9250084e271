// A disk: files by name, and what a crash may leave of them.
ghost use Rattle.std.specs.Prelude.{◌≡◌, ◌⊎◌, ◌≢◌, ◌≤◌, ℕ, Bool, List, Option, codes, length, option_map, is_some, IfOk, IfSome, OnOk, OnErr, IsErrOf, IsSome, IsTrue, MatchOption};
ghost use Rattle.std.specs.FinMap.{empty};
ghost use Rattle.fsfs_base.specs.Failures.{HasCause, Rose, added_count};
ghost use Rattle.fsfs_disk.specs.Labels.{label_of, has_label, IsListing};
ghost use Rattle.fsfs_disk.specs.Benches.{removed, bytes_on, IsFirmFile, HasShortFiles};
ghost use Rattle.fsfs_disk.specs.Trace.{Trace, NameChange, Put, Adopt, Rename, Remove, FirmNames, KeepLabel, DropLabel, files_now, file_at, labels_now, Performs, FailsAt, FailsToPut, FailsToAdopt, IsRead, IsSize, IsThere, PerformsIfThere};
ghost use Rattle.fsfs_disk.specs.Crash.{AllImages};

use crate::bench::Bench;
use crate::label::Label;
use fsfs_base::{Failed, Name};
use std::alloc::Global;
use thiserror::Error;

/// Why a folder wasn't listed.
#[derive(Clone, Copy, Debug, Error)]
pub enum ListFault {
    /// The disk failed, and its count of faults rose.
    #[error("the call failed")]
    Failed,
    /// There was no memory for the list.
    #[error("out of memory")]
    Memory,
}

/// The files of one repository, below its folder, and the labels of the benches that are made beside them. The crash
/// model is this project's profile: a change of names stays pending until `firm_names`, and a crash may leave each pending
/// change or not; files that have names are firm; a crash leaves each label that is kept or not.
///
/// No file grows longer than 2^62 bytes: a call that would pass that fails.
pub trait Disk {
    /// What it makes for a transaction, a pack or a copy to write in.
    type Bench: Bench;

    /// The files that it began with and its operations since; none where it doesn't tell.
    ghost trace: { Self → Option Trace };

    /// The path that it was mounted for.
    ghost mount_path: { Self → List ℕ };

    /// Whether its names and labels may be changed. No call changes this.
    ghost may_write: { Self → Bool };

    /// How often it has failed. The count stops at the last number of a u64.
    ghost faults: { Self → ℕ };

    /// How often the benches have failed that it took back. The count stops at the last number of a u64.
    ghost bench_faults: { Self → ℕ };

    /// Fills the buffer from an offset on, as far as the file goes, and answers how many bytes that is: fewer than the
    /// buffer's length only at the file's end, none past it. `None`: there is no such file.
    fn read(&mut self, name: &Name, offset: u64, buffer: &mut [u8]) -> Result<Option<usize>, Failed>
        ensures bound { IfOk result (λ found. IfSome found (λ n. n ≤ length buffer.new)) }
        ensures bytes { IfSome (trace self.old) (λ t. IfOk result (IsRead (file_at t name.now) offset buffer.old buffer.new)) }
        ensures same { trace self.new ≡ trace self.old }
        ensures mounted { mount_path self.new ≡ mount_path self.old }
        ensures right { may_write self.new ≡ may_write self.old }
        ensures benches { bench_faults self.new ≡ bench_faults self.old }
        ensures cause { HasCause (faults self.old) (faults self.new) result };

    /// The length of a file in bytes. `None`: there is no such file.
    fn size(&mut self, name: &Name) -> Result<Option<u64>, Failed>
        ensures length { IfSome (trace self.old) (λ t. IfOk result (IsSize (file_at t name.now))) }
        ensures same { trace self.new ≡ trace self.old }
        ensures mounted { mount_path self.new ≡ mount_path self.old }
        ensures right { may_write self.new ≡ may_write self.old }
        ensures benches { bench_faults self.new ≡ bench_faults self.old }
        ensures cause { HasCause (faults self.old) (faults self.new) result };

    /// Makes a new file of these bytes, firm, and gives it the name, also where the name is in use.
    fn put(&mut self, name: &Name, bytes: &[u8]) -> Result<(), Failed>
        requires { IsTrue (may_write self.old) }
        ensures ok { OnOk result (Performs (Put name.now bytes.now) (trace self.old) (trace self.new)) }
        ensures err { OnErr result (FailsToPut name.now bytes.now (trace self.old) (trace self.new)) }
        ensures mounted { mount_path self.new ≡ mount_path self.old }
        ensures right { may_write self.new ≡ may_write self.old }
        ensures benches { bench_faults self.new ≡ bench_faults self.old }
        ensures cause { HasCause (faults self.old) (faults self.new) result };

    /// Gives a file another name, by one change, in place of the file that had that name.
    fn rename(&mut self, from: &Name, to: &Name) -> Result<(), Failed>
        requires right { IsTrue (may_write self.old) }
        requires there { IfSome (trace self.old) (λ t. IsSome (file_at t from.now)) }
        ensures ok { OnOk result (Performs (Rename from.now to.now) (trace self.old) (trace self.new)) }
        ensures err { OnErr result (FailsAt (Rename from.now to.now) (trace self.old) (trace self.new)) }
        ensures mounted { mount_path self.new ≡ mount_path self.old }
        ensures right { may_write self.new ≡ may_write self.old }
        ensures benches { bench_faults self.new ≡ bench_faults self.old }
        ensures cause { HasCause (faults self.old) (faults self.new) result };

    /// Takes a name away. `false`: there is no such file.
    fn remove(&mut self, name: &Name) -> Result<bool, Failed>
        requires { IsTrue (may_write self.old) }
        ensures there { IfSome (trace self.old) (λ t. IfOk result (IsThere (file_at t name.now))) }
        ensures ok { IfOk result (λ there. PerformsIfThere there (Remove name.now) (trace self.old) (trace self.new)) }
        ensures err { OnErr result (FailsAt (Remove name.now) (trace self.old) (trace self.new)) }
        ensures mounted { mount_path self.new ≡ mount_path self.old }
        ensures right { may_write self.new ≡ may_write self.old }
        ensures benches { bench_faults self.new ≡ bench_faults self.old }
        ensures cause { HasCause (faults self.old) (faults self.new) result };

    /// Makes all changes of names firm.
    fn firm_names(&mut self) -> Result<(), Failed>
        ensures ok { OnOk result (Performs FirmNames (trace self.old) (trace self.new)) }
        ensures err { OnErr result (FailsAt FirmNames (trace self.old) (trace self.new)) }
        ensures mounted { mount_path self.new ≡ mount_path self.old }
        ensures right { may_write self.new ≡ may_write self.old }
        ensures benches { bench_faults self.new ≡ bench_faults self.old }
        ensures cause { HasCause (faults self.old) (faults self.new) result };

    /// Makes a folder and those above it, also where they are there. Folders are no part of the trace.
    fn make_folder(&mut self, name: &Name) -> Result<(), Failed>
        requires { IsTrue (may_write self.old) }
        ensures same { trace self.new ≡ trace self.old }
        ensures mounted { mount_path self.new ≡ mount_path self.old }
        ensures right { may_write self.new ≡ may_write self.old }
        ensures benches { bench_faults self.new ≡ bench_faults self.old }
        ensures cause { HasCause (faults self.old) (faults self.new) result };

    /// Drops a folder that is empty.
    fn drop_folder(&mut self, name: &Name) -> Result<(), Failed>
        requires { IsTrue (may_write self.old) }
        ensures same { trace self.new ≡ trace self.old }
        ensures mounted { mount_path self.new ≡ mount_path self.old }
        ensures right { may_write self.new ≡ may_write self.old }
        ensures benches { bench_faults self.new ≡ bench_faults self.old }
        ensures cause { HasCause (faults self.old) (faults self.new) result };

    /// The names next below a folder, in the order of their bytes. Only the folder of transactions is listed: a name
    /// `<transaction>.txn` for each label of a transaction that is kept.
    fn list(&mut self, alloc: Global, folder: &Name) -> Result<Vec<Name>, ListFault>
        requires { folder.now ≡ codes "db/transactions" }
        ensures names { IfSome (trace self.old) (λ t. IfOk result (λ found. IsListing (labels_now t) found.items)) }
        ensures same { trace self.new ≡ trace self.old }
        ensures mounted { mount_path self.new ≡ mount_path self.old }
        ensures right { may_write self.new ≡ may_write self.old }
        ensures benches { bench_faults self.new ≡ bench_faults self.old }
        ensures later { faults self.old ≤ faults self.new }
        ensures kept { OnOk result (faults self.new ≡ faults self.old) }
        ensures failed { IsErrOf result ListFault.Failed → Rose (faults self.old) (faults self.new) }
        ensures memory { IsErrOf result ListFault.Memory → faults self.new ≡ faults self.old };

    /// Keeps a label, and makes an empty bench for it. What a bench of this label held before is gone.
    fn bench(&mut self, label: &Label) -> Result<Self::Bench, Failed>
        requires { IsTrue (may_write self.old) }
        ensures ok { OnOk result (Performs (KeepLabel (label_of label.now)) (trace self.old) (trace self.new)) }
        ensures err { OnErr result (FailsAt (KeepLabel (label_of label.now)) (trace self.old) (trace self.new)) }
        ensures empty { IfOk result (λ bench. Self.Bench.contents bench ≡ option_map (λ _. empty) (trace self.old)) }
        ensures new { IfOk result (λ bench. Self.Bench.faults bench ≡ 0) }
        ensures mounted { mount_path self.new ≡ mount_path self.old }
        ensures right { may_write self.new ≡ may_write self.old }
        ensures benches { bench_faults self.new ≡ bench_faults self.old }
        ensures cause { HasCause (faults self.old) (faults self.new) result };

    /// Drops what a label's bench holds, and then the label. `false`: the label isn't kept. Whatever is answered, the bench
    /// that is handed in is no more, and its count of faults is added to that of benches.
    fn drop_bench(&mut self, label: &Label, bench: Option<Self::Bench>) -> Result<bool, Failed>
        requires { IsTrue (may_write self.old) }
        ensures there { IfSome (trace self.old) (λ t. IfOk result (λ there. there ≡ has_label (label_of label.now) (labels_now t))) }
        ensures ok { IfOk result (λ there. PerformsIfThere there (DropLabel (label_of label.now)) (trace self.old) (trace self.new)) }
        ensures err { OnErr result (FailsAt (DropLabel (label_of label.now)) (trace self.old) (trace self.new)) }
        ensures mounted { mount_path self.new ≡ mount_path self.old }
        ensures right { may_write self.new ≡ may_write self.old }
        ensures benches { MatchOption bench (bench_faults self.new ≡ bench_faults self.old) (λ b. bench_faults self.new ≡ added_count (bench_faults self.old) (Self.Bench.faults b)) }
        ensures cause { HasCause (faults self.old) (faults self.new) result };

    /// Gives a firm file of a bench a name here, by one change, in place of the file that had that name. The bench has it no more.
    fn adopt(&mut self, bench: &mut Self::Bench, file: &Name, to: &Name) -> Result<(), Failed>
        requires right { IsTrue (may_write self.old) }
        requires firm { IsFirmFile (Self.Bench.contents bench.old) (Self.Bench.firm_to bench.old file.now) file.now }
        ensures ok { OnOk result (Performs (Adopt to.now (bytes_on (Self.Bench.contents bench.old) file.now)) (trace self.old) (trace self.new)) }
        ensures err { OnErr result (FailsToAdopt (Adopt to.now (bytes_on (Self.Bench.contents bench.old) file.now)) (trace self.old) (trace self.new) (removed file.now) (Self.Bench.contents bench.old) (Self.Bench.contents bench.new)) }
        ensures gone { OnOk result (Self.Bench.contents bench.new ≡ option_map (removed file.now) (Self.Bench.contents bench.old)) }
        ensures others { (q : List ℕ) → q ≢ file.now → Self.Bench.firm_to bench.new q ≡ Self.Bench.firm_to bench.old q }
        ensures bench_same { Self.Bench.faults bench.new ≡ Self.Bench.faults bench.old }
        ensures mounted { mount_path self.new ≡ mount_path self.old }
        ensures right { may_write self.new ≡ may_write self.old }
        ensures benches { bench_faults self.new ≡ bench_faults self.old }
        ensures cause { HasCause (faults self.old) (faults self.new) result };

    /// In each image no file is longer than 2^62 bytes.
    ghost short: { (disk : Self) → AllImages (trace disk) HasShortFiles };

    /// Where a disk tells, its benches tell.
    ghost benches_tell: { (disk : Self) (bench : Self.Bench) → is_some (Self.Bench.contents bench) ≡ is_some (trace disk) };
}
