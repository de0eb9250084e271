// A bench: files in a folder that no other has, and a transaction's prototype revision file beside those of others.
ghost use Rattle.std.specs.Prelude.{◌≡◌, ◌≢◌, ◌≤◌, ℕ, List, false, length, option_map, IfOk, IfSome, OnOk, OnErr};
ghost use Rattle.std.specs.FinMap.{get};
ghost use Rattle.fsfs_disk.specs.Benches.{appended, written, removed, bytes_on, IsFirmFile, Spoils};
ghost use Rattle.fsfs_disk.specs.Trace.{Adopt, Performs, FailsToAdopt, IsRead, IsSize, IsThere};
ghost use Rattle.fsfs_folders.specs.Prototypes.{is_elsewhere as elsewhere, whole_told, whole_firm};
ghost use Rattle.fsfs_folders.specs.Standing.{told};

use crate::benches::part::BenchPart;
use crate::folders::Folders;
use crate::{CallError, Calls};
use fsfs_base::{Failed, Name, counted};
use fsfs_disk::Bench;

/// The name that a transaction's prototype revision file has in its bench.
pub const PROTO: &str = "rev";

/// A transaction's prototype revision file: it stands in a folder with those of others, under a name of its own.
#[derive(Drop)]
pub struct Proto<C: Calls + Drop> {
    part: BenchPart<C>,
    name: Name,
}

impl<C: Calls + Drop> Proto<C> {
    /// The file with this name there.
    pub fn new(part: BenchPart<C>, name: Name) -> Proto<C>
        ensures calls { result.part.calls ≡ part.calls }
        ensures name { result.name ≡ name }
    {
        Proto { part, name }
    }
}

/// The files of a transaction, a pack or a copy, right in a folder of their own, over calls on that folder. The file `rev` of a
/// transaction is its prototype revision file, which stands elsewhere. A name with a slash is refused.
#[derive(Drop)]
pub struct FolderBench<C: Calls + Drop> {
    files: BenchPart<C>,
    proto: Option<Proto<C>>,
    faults: u64,
}

impl<C: Calls + Drop> FolderBench<C> {
    /// A bench of these files.
    pub fn new(files: BenchPart<C>, proto: Option<Proto<C>>) -> FolderBench<C>
        ensures calls { result.files.calls ≡ files.calls }
        ensures proto { result.proto ≡ proto }
        ensures faults { result.faults ≡ 0 }
    {
        FolderBench {
            files,
            proto,
            faults: 0,
        }
    }

    /// How often it has failed.
    pub fn faults(&self) -> u64
        ensures { result ≡ self.now.faults }
    {
        self.faults
    }

    // Whether a file is the prototype revision file.
    fn is_proto(&self, file: &Name) -> bool
        ensures { result ≡ elsewhere self.now.proto file.now }
    {
        match &self.proto {
            Some(_) => file.is(&Name::new(PROTO)),
            None => false,
        }
    }

    /// Gives a firm file of it a name of the repository.
    pub fn give(
        &mut self,
        folders: &mut Folders<C>,
        file: &Name,
        to: &Name,
    ) -> Result<(), CallError>
        requires { IsFirmFile (whole_told self.old.proto (λ p. C.history p.part.calls) (λ p. p.name) (C.history self.old.files.calls)) (whole_firm self.old.proto (λ p. C.history p.part.calls) (λ p. p.name) (C.history self.old.files.calls) file.now) file.now }
        ensures ok { OnOk result (Performs (Adopt to.now (bytes_on (whole_told self.old.proto (λ p. C.history p.part.calls) (λ p. p.name) (C.history self.old.files.calls)) file.now)) (told (C.history folders.old.calls)) (told (C.history folders.new.calls))) }
        ensures gone { OnOk result (whole_told self.new.proto (λ p. C.history p.part.calls) (λ p. p.name) (C.history self.new.files.calls) ≡ option_map (removed file.now) (whole_told self.old.proto (λ p. C.history p.part.calls) (λ p. p.name) (C.history self.old.files.calls))) }
        ensures err { OnErr result (FailsToAdopt (Adopt to.now (bytes_on (whole_told self.old.proto (λ p. C.history p.part.calls) (λ p. p.name) (C.history self.old.files.calls)) file.now)) (told (C.history folders.old.calls)) (told (C.history folders.new.calls)) (removed file.now) (whole_told self.old.proto (λ p. C.history p.part.calls) (λ p. p.name) (C.history self.old.files.calls)) (whole_told self.new.proto (λ p. C.history p.part.calls) (λ p. p.name) (C.history self.new.files.calls))) }
        ensures others { (q : List ℕ) → q ≢ file.now → whole_firm self.new.proto (λ p. C.history p.part.calls) (λ p. p.name) (C.history self.new.files.calls) q ≡ whole_firm self.old.proto (λ p. C.history p.part.calls) (λ p. p.name) (C.history self.old.files.calls) q }
        ensures faults { self.new.faults ≡ self.old.faults }
    {
        if !self.is_proto(file) {
            return self.files.give(folders, file, to);
        }
        match &mut self.proto {
            Some(proto) => proto.part.give(folders, &proto.name, to),
            None => Err(CallError::Failed),
        }
    }

    fn try_append(&mut self, file: &Name, bytes: &[u8]) -> Result<(), CallError>
        ensures ok { OnOk result (whole_told self.new.proto (λ p. C.history p.part.calls) (λ p. p.name) (C.history self.new.files.calls) ≡ option_map (appended file.now bytes.now) (whole_told self.old.proto (λ p. C.history p.part.calls) (λ p. p.name) (C.history self.old.files.calls))) }
        ensures err { OnErr result (Spoils file.now (whole_told self.old.proto (λ p. C.history p.part.calls) (λ p. p.name) (C.history self.old.files.calls)) (whole_told self.new.proto (λ p. C.history p.part.calls) (λ p. p.name) (C.history self.new.files.calls))) }
        ensures firm { OnOk result (whole_firm self.new.proto (λ p. C.history p.part.calls) (λ p. p.name) (C.history self.new.files.calls) file.now ≡ whole_firm self.old.proto (λ p. C.history p.part.calls) (λ p. p.name) (C.history self.old.files.calls) file.now) }
        ensures others { (q : List ℕ) → q ≢ file.now → whole_firm self.new.proto (λ p. C.history p.part.calls) (λ p. p.name) (C.history self.new.files.calls) q ≡ whole_firm self.old.proto (λ p. C.history p.part.calls) (λ p. p.name) (C.history self.old.files.calls) q }
        ensures faults { self.new.faults ≡ self.old.faults }
    {
        if !self.is_proto(file) {
            return self.files.append(file, bytes);
        }
        match &mut self.proto {
            Some(proto) => proto.part.append(&proto.name, bytes),
            None => Err(CallError::Failed),
        }
    }

    fn try_write(&mut self, file: &Name, bytes: &[u8]) -> Result<(), CallError>
        ensures ok { OnOk result (whole_told self.new.proto (λ p. C.history p.part.calls) (λ p. p.name) (C.history self.new.files.calls) ≡ option_map (written file.now bytes.now) (whole_told self.old.proto (λ p. C.history p.part.calls) (λ p. p.name) (C.history self.old.files.calls))) }
        ensures err { OnErr result (Spoils file.now (whole_told self.old.proto (λ p. C.history p.part.calls) (λ p. p.name) (C.history self.old.files.calls)) (whole_told self.new.proto (λ p. C.history p.part.calls) (λ p. p.name) (C.history self.new.files.calls))) }
        ensures firm { OnOk result (whole_firm self.new.proto (λ p. C.history p.part.calls) (λ p. p.name) (C.history self.new.files.calls) file.now ≡ 0) }
        ensures others { (q : List ℕ) → q ≢ file.now → whole_firm self.new.proto (λ p. C.history p.part.calls) (λ p. p.name) (C.history self.new.files.calls) q ≡ whole_firm self.old.proto (λ p. C.history p.part.calls) (λ p. p.name) (C.history self.old.files.calls) q }
        ensures faults { self.new.faults ≡ self.old.faults }
    {
        if !self.is_proto(file) {
            return self.files.write(file, bytes);
        }
        match &mut self.proto {
            Some(proto) => proto.part.write(&proto.name, bytes),
            None => Err(CallError::Failed),
        }
    }

    fn try_read(
        &mut self,
        file: &Name,
        offset: u64,
        buffer: &mut [u8],
    ) -> Result<Option<usize>, CallError>
        ensures bound { IfOk result (λ found. IfSome found (λ n. n ≤ length buffer.new)) }
        ensures bytes { IfSome (whole_told self.old.proto (λ p. C.history p.part.calls) (λ p. p.name) (C.history self.old.files.calls)) (λ m. IfOk result (IsRead (get m file.now) offset buffer.old buffer.new)) }
        ensures same { whole_told self.new.proto (λ p. C.history p.part.calls) (λ p. p.name) (C.history self.new.files.calls) ≡ whole_told self.old.proto (λ p. C.history p.part.calls) (λ p. p.name) (C.history self.old.files.calls) }
        ensures firm { whole_firm self.new.proto (λ p. C.history p.part.calls) (λ p. p.name) (C.history self.new.files.calls) ≡ whole_firm self.old.proto (λ p. C.history p.part.calls) (λ p. p.name) (C.history self.old.files.calls) }
        ensures faults { self.new.faults ≡ self.old.faults }
    {
        if !self.is_proto(file) {
            return self.files.read(file, offset, buffer);
        }
        match &mut self.proto {
            Some(proto) => proto.part.read(&proto.name, offset, buffer),
            None => Err(CallError::Failed),
        }
    }

    fn try_len(&mut self, file: &Name) -> Result<Option<u64>, CallError>
        ensures length { IfSome (whole_told self.old.proto (λ p. C.history p.part.calls) (λ p. p.name) (C.history self.old.files.calls)) (λ m. IfOk result (IsSize (get m file.now))) }
        ensures same { whole_told self.new.proto (λ p. C.history p.part.calls) (λ p. p.name) (C.history self.new.files.calls) ≡ whole_told self.old.proto (λ p. C.history p.part.calls) (λ p. p.name) (C.history self.old.files.calls) }
        ensures firm { whole_firm self.new.proto (λ p. C.history p.part.calls) (λ p. p.name) (C.history self.new.files.calls) ≡ whole_firm self.old.proto (λ p. C.history p.part.calls) (λ p. p.name) (C.history self.old.files.calls) }
        ensures faults { self.new.faults ≡ self.old.faults }
    {
        if !self.is_proto(file) {
            return self.files.len(file);
        }
        match &mut self.proto {
            Some(proto) => proto.part.len(&proto.name),
            None => Err(CallError::Failed),
        }
    }

    fn try_firm(&mut self, file: &Name) -> Result<(), CallError>
        ensures ok { OnOk result (whole_told self.new.proto (λ p. C.history p.part.calls) (λ p. p.name) (C.history self.new.files.calls) ≡ whole_told self.old.proto (λ p. C.history p.part.calls) (λ p. p.name) (C.history self.old.files.calls)) }
        ensures err { OnErr result (Spoils file.now (whole_told self.old.proto (λ p. C.history p.part.calls) (λ p. p.name) (C.history self.old.files.calls)) (whole_told self.new.proto (λ p. C.history p.part.calls) (λ p. p.name) (C.history self.new.files.calls))) }
        ensures firm { OnOk result (whole_firm self.new.proto (λ p. C.history p.part.calls) (λ p. p.name) (C.history self.new.files.calls) file.now ≡ length (bytes_on (whole_told self.old.proto (λ p. C.history p.part.calls) (λ p. p.name) (C.history self.old.files.calls)) file.now)) }
        ensures others { (q : List ℕ) → q ≢ file.now → whole_firm self.new.proto (λ p. C.history p.part.calls) (λ p. p.name) (C.history self.new.files.calls) q ≡ whole_firm self.old.proto (λ p. C.history p.part.calls) (λ p. p.name) (C.history self.old.files.calls) q }
        ensures faults { self.new.faults ≡ self.old.faults }
    {
        if !self.is_proto(file) {
            return self.files.firm(file);
        }
        match &mut self.proto {
            Some(proto) => proto.part.firm(&proto.name),
            None => Err(CallError::Failed),
        }
    }

    fn try_remove(&mut self, file: &Name) -> Result<bool, CallError>
        ensures there { IfOk result (λ there. IfSome (whole_told self.old.proto (λ p. C.history p.part.calls) (λ p. p.name) (C.history self.old.files.calls)) (λ m. IsThere (get m file.now) there)) }
        ensures ok { OnOk result (whole_told self.new.proto (λ p. C.history p.part.calls) (λ p. p.name) (C.history self.new.files.calls) ≡ option_map (removed file.now) (whole_told self.old.proto (λ p. C.history p.part.calls) (λ p. p.name) (C.history self.old.files.calls))) }
        ensures err { OnErr result (Spoils file.now (whole_told self.old.proto (λ p. C.history p.part.calls) (λ p. p.name) (C.history self.old.files.calls)) (whole_told self.new.proto (λ p. C.history p.part.calls) (λ p. p.name) (C.history self.new.files.calls))) }
        ensures firm { OnOk result (whole_firm self.new.proto (λ p. C.history p.part.calls) (λ p. p.name) (C.history self.new.files.calls) file.now ≡ 0) }
        ensures others { (q : List ℕ) → q ≢ file.now → whole_firm self.new.proto (λ p. C.history p.part.calls) (λ p. p.name) (C.history self.new.files.calls) q ≡ whole_firm self.old.proto (λ p. C.history p.part.calls) (λ p. p.name) (C.history self.old.files.calls) q }
        ensures faults { self.new.faults ≡ self.old.faults }
    {
        if !self.is_proto(file) {
            return self.files.remove(file);
        }
        match &mut self.proto {
            Some(proto) => proto.part.remove(&proto.name),
            None => Err(CallError::Failed),
        }
    }
}

impl<C: Calls + Drop> Bench for FolderBench<C> {
    ghost use Rattle.fsfs_folders.specs.Prototypes.{whole_told, whole_firm, whole_is_short};
    ghost use Rattle.fsfs_folders.specs.Laws.{bench_is_short};

    ghost contents = { λ bench. whole_told bench.proto (λ p. C.Calls.history p.part.calls) (λ p. p.name) (C.Calls.history bench.files.calls) };

    ghost firm_to = { λ bench. whole_firm bench.proto (λ p. C.Calls.history p.part.calls) (λ p. p.name) (C.Calls.history bench.files.calls) };

    ghost faults = { λ bench. bench.faults };

    fn append(&mut self, file: &Name, bytes: &[u8]) -> Result<(), Failed> {
        let done = self.try_append(file, bytes);
        counted(&mut self.faults, done)
    }

    fn write(&mut self, file: &Name, bytes: &[u8]) -> Result<(), Failed> {
        let done = self.try_write(file, bytes);
        counted(&mut self.faults, done)
    }

    fn read(
        &mut self,
        file: &Name,
        offset: u64,
        buffer: &mut [u8],
    ) -> Result<Option<usize>, Failed> {
        let found = self.try_read(file, offset, buffer);
        counted(&mut self.faults, found)
    }

    fn len(&mut self, file: &Name) -> Result<Option<u64>, Failed> {
        let found = self.try_len(file);
        counted(&mut self.faults, found)
    }

    fn firm(&mut self, file: &Name) -> Result<(), Failed> {
        let done = self.try_firm(file);
        counted(&mut self.faults, done)
    }

    fn remove(&mut self, file: &Name) -> Result<bool, Failed> {
        let was_there = self.try_remove(file);
        counted(&mut self.faults, was_there)
    }

    ghost short = { λ bench. whole_is_short bench.proto (λ p. C.Calls.history p.part.calls) (λ p. p.name) (C.Calls.history bench.files.calls) (bench_is_short (C.Calls.history bench.files.calls) bench.files.short) (λ p. bench_is_short (C.Calls.history p.part.calls) p.part.short) };
}
