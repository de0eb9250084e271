// The files of a bench that stand right in one folder.
ghost use Rattle.std.specs.Prelude.{◌≡◌, ◌≢◌, ◌≤◌, ◌^◌, ℕ, List, Some, true, false, length, option_map, IfOk, IfSome, OnOk, OnErr};
ghost use Rattle.std.specs.FinMap.{get};
ghost use Rattle.fsfs_disk.specs.Benches.{appended, written, removed, bytes_on, IsFirmFile, Spoils};
ghost use Rattle.fsfs_disk.specs.Trace.{Adopt, Performs, FailsToAdopt, IsRead, IsSize, IsThere};
ghost use Rattle.fsfs_folders.specs.System.CallRecord.{CallRecord, Contents};
ghost use Rattle.fsfs_folders.specs.BenchFiles.{file_held, bench_told, firm_held, AreShort, AreKept};
ghost use Rattle.fsfs_folders.specs.OpenFiles.{is_in_place};
ghost use Rattle.fsfs_folders.specs.Standing.{told};

use crate::benches::bench_files::{append_to, is_entry, remove_from, sync_in, write_to};
use crate::folders::Folders;
use crate::opened::Opened;
use crate::reading::{file_size, read_file};
use crate::{CallError, Calls, Mode, Path};
use fsfs_base::Name;

/// Files right in a folder, over calls on it. A name with a slash is refused. The file that bytes were added to last stays open for more,
/// until another call changes a file.
#[derive(Drop)]
pub struct BenchPart<C: Calls + Drop> {
    calls: C,
    // What a file gets before it is firm.
    mode: Option<Mode>,
    // The sync of a file has failed, so no later one says that its bytes are firm.
    is_lost: bool,
    // The file that bytes were added to last.
    last: Option<Opened<C>>,
    ghost short: { (r : CallRecord) → C.Calls.history calls ≡ Some r → (name : List ℕ) (file : Contents) → file_held r name ≡ Some file → length file.bytes ≤ 2 ^ 62 },
    ghost kept: { is_lost ≡ false → (r : CallRecord) → C.Calls.history calls ≡ Some r → (name : List ℕ) (file : Contents) → file_held r name ≡ Some file → file.is_lost ≡ false },
    ghost named: { is_in_place last (λ it. it.name) (λ it. C.File.OpenFile.number it.file) (C.Calls.history calls) ≡ true },
}

impl<C: Calls + Drop> BenchPart<C> {
    /// The files that calls on a folder find. They get this mode as they are made firm.
    pub fn new(calls: C, mode: Option<Mode>) -> BenchPart<C>
        requires short { AreShort (C.history calls) }
        requires kept { AreKept (C.history calls) }
        ensures { result.calls ≡ calls }
    {
        BenchPart {
            calls,
            mode,
            is_lost: false,
            last: None,
        }
    }

    /// Gives a firm file of it a name of the repository.
    pub fn give(
        &mut self,
        folders: &mut Folders<C>,
        file: &Name,
        to: &Name,
    ) -> Result<(), CallError>
        requires { IsFirmFile (bench_told (C.history self.old.calls)) (firm_held (C.history self.old.calls) file.now) file.now }
        ensures ok { OnOk result (Performs (Adopt to.now (bytes_on (bench_told (C.history self.old.calls)) file.now)) (told (C.history folders.old.calls)) (told (C.history folders.new.calls))) }
        ensures gone { OnOk result (bench_told (C.history self.new.calls) ≡ option_map (removed file.now) (bench_told (C.history self.old.calls))) }
        ensures err { OnErr result (FailsToAdopt (Adopt to.now (bytes_on (bench_told (C.history self.old.calls)) file.now)) (told (C.history folders.old.calls)) (told (C.history folders.new.calls)) (removed file.now) (bench_told (C.history self.old.calls)) (bench_told (C.history self.new.calls))) }
        ensures others { (q : List ℕ) → q ≢ file.now → firm_held (C.history self.new.calls) q ≡ firm_held (C.history self.old.calls) q }
    {
        if !is_entry(file) {
            return Err(CallError::OtherKind);
        }
        self.last = None;
        folders.adopt(&mut self.calls, file, to)
    }

    /// Adds bytes at the end of a file, which begins with them where there is none.
    pub fn append(&mut self, file: &Name, bytes: &[u8]) -> Result<(), CallError>
        ensures ok { OnOk result (bench_told (C.history self.new.calls) ≡ option_map (appended file.now bytes.now) (bench_told (C.history self.old.calls))) }
        ensures err { OnErr result (Spoils file.now (bench_told (C.history self.old.calls)) (bench_told (C.history self.new.calls))) }
        ensures firm { OnOk result (firm_held (C.history self.new.calls) file.now ≡ firm_held (C.history self.old.calls) file.now) }
        ensures others { (q : List ℕ) → q ≢ file.now → firm_held (C.history self.new.calls) q ≡ firm_held (C.history self.old.calls) q }
    {
        if !is_entry(file) {
            return Err(CallError::OtherKind);
        }
        append_to(&mut self.calls, &mut self.last, file, bytes)
    }

    /// Makes a new file of these bytes, in place of the one that has the name.
    pub fn write(&mut self, file: &Name, bytes: &[u8]) -> Result<(), CallError>
        ensures ok { OnOk result (bench_told (C.history self.new.calls) ≡ option_map (written file.now bytes.now) (bench_told (C.history self.old.calls))) }
        ensures err { OnErr result (Spoils file.now (bench_told (C.history self.old.calls)) (bench_told (C.history self.new.calls))) }
        ensures firm { OnOk result (firm_held (C.history self.new.calls) file.now ≡ 0) }
        ensures others { (q : List ℕ) → q ≢ file.now → firm_held (C.history self.new.calls) q ≡ firm_held (C.history self.old.calls) q }
    {
        if !is_entry(file) {
            return Err(CallError::OtherKind);
        }
        self.last = None;
        write_to(&mut self.calls, file, bytes)
    }

    /// Fills the buffer from an offset on, as far as the file goes. `None`: there is no such file.
    pub fn read(
        &mut self,
        file: &Name,
        offset: u64,
        buffer: &mut [u8],
    ) -> Result<Option<usize>, CallError>
        ensures bound { IfOk result (λ found. IfSome found (λ n. n ≤ length buffer.new)) }
        ensures bytes { IfSome (bench_told (C.history self.old.calls)) (λ m. IfOk result (IsRead (get m file.now) offset buffer.old buffer.new)) }
        ensures same { C.history self.new.calls ≡ C.history self.old.calls }
    {
        if !is_entry(file) {
            return Ok(None);
        }
        read_file(&mut self.calls, &Path::of(file), offset, buffer)
    }

    /// The length of a file in bytes. `None`: there is no such file.
    pub fn len(&mut self, file: &Name) -> Result<Option<u64>, CallError>
        ensures length { IfSome (bench_told (C.history self.old.calls)) (λ m. IfOk result (IsSize (get m file.now))) }
        ensures same { C.history self.new.calls ≡ C.history self.old.calls }
    {
        if !is_entry(file) {
            return Ok(None);
        }
        file_size(&mut self.calls, &Path::of(file))
    }

    /// Makes the bytes of a file firm, if there is one. Where that failed once, it always fails.
    pub fn firm(&mut self, file: &Name) -> Result<(), CallError>
        ensures ok { OnOk result (bench_told (C.history self.new.calls) ≡ bench_told (C.history self.old.calls)) }
        ensures err { OnErr result (Spoils file.now (bench_told (C.history self.old.calls)) (bench_told (C.history self.new.calls))) }
        ensures firm { OnOk result (firm_held (C.history self.new.calls) file.now ≡ length (bytes_on (bench_told (C.history self.old.calls)) file.now)) }
        ensures others { (q : List ℕ) → q ≢ file.now → firm_held (C.history self.new.calls) q ≡ firm_held (C.history self.old.calls) q }
    {
        if self.is_lost || !is_entry(file) {
            return Err(CallError::Failed);
        }
        self.last = None;
        let synced = sync_in(&mut self.calls, file, self.mode);
        self.is_lost = synced.is_err();
        synced
    }

    /// Takes a file away. `false`: there is no such file.
    pub fn remove(&mut self, file: &Name) -> Result<bool, CallError>
        ensures there { IfOk result (λ there. IfSome (bench_told (C.history self.old.calls)) (λ m. IsThere (get m file.now) there)) }
        ensures ok { OnOk result (bench_told (C.history self.new.calls) ≡ option_map (removed file.now) (bench_told (C.history self.old.calls))) }
        ensures err { OnErr result (Spoils file.now (bench_told (C.history self.old.calls)) (bench_told (C.history self.new.calls))) }
        ensures firm { OnOk result (firm_held (C.history self.new.calls) file.now ≡ 0) }
        ensures others { (q : List ℕ) → q ≢ file.now → firm_held (C.history self.new.calls) q ≡ firm_held (C.history self.old.calls) q }
    {
        if !is_entry(file) {
            return Err(CallError::OtherKind);
        }
        self.last = None;
        remove_from(&mut self.calls, file)
    }
}
