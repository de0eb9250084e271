// A bench in memory.
ghost use Rattle.std.specs.Prelude.{◌≡◌, ◌≢◌, ◌≤◌, ◌+◌, ◌^◌, ℕ, List, [], ◌++◌, Some, None, length, vec_len, unwrap_or, option_map, MatchOption, OnOk, OnErr, IfOk};
ghost use Rattle.std.specs.FinMap as map;
ghost use Rattle.fsfs_base.specs.Failures.{HasCause};
ghost use Rattle.fsfs_disk.specs.Benches.{HasShortFiles, bytes_in, removed};
ghost use Rattle.fsfs_memory.specs.Memdisk.BenchFiles.{bench_bytes, firm_of, held_files, held_firm};

use crate::memdisk::bench_files::{BenchFile, BenchFiles};
use crate::memdisk::copying::copy_from;
use fsfs_base::{Failed, Faults, Name};
use fsfs_disk::Bench;
use std::alloc::{AllocError, Global};

/// No file grows longer than this.
pub const LONGEST: usize = 1 << 62;

/// A bench in memory. It tells its files, and can fail at calls that are chosen.
#[derive(Drop)]
pub struct MemBench {
    alloc: Global,
    files: BenchFiles,
    faults: Faults,
    ghost short: { HasShortFiles (held_files files.by_name.entries) },
}

// A file with more bytes at its end.
fn extended(mut file: BenchFile, bytes: &[u8]) -> Result<BenchFile, AllocError>
    ensures bytes { IfOk result (λ longer. bench_bytes longer ≡ bench_bytes file ++ bytes.now) }
    ensures firm { IfOk result (λ longer. longer.firm ≡ file.firm) }
{
    file.bytes.extend_from_slice(bytes)?;
    Ok(file)
}

// A file with these bytes, of which none are firm.
fn made(alloc: Global, bytes: &[u8]) -> Result<BenchFile, AllocError>
    ensures bytes { IfOk result (λ file. bench_bytes file ≡ bytes.now) }
    ensures firm { IfOk result (λ file. file.firm ≡ 0) }
{
    Ok(BenchFile {
        bytes: Vec::from_slice(alloc, bytes)?,
        firm: 0,
    })
}

// The file, or an empty one.
fn or_empty(alloc: Global, file: Option<BenchFile>) -> BenchFile
    ensures bytes { bench_bytes result ≡ unwrap_or (option_map bench_bytes file) [] }
    ensures firm { result.firm ≡ firm_of file }
{
    match file {
        Some(file) => file,
        None => BenchFile {
            bytes: Vec::new(alloc),
            firm: 0,
        },
    }
}

// The file with all of its bytes firm.
fn made_firm(file: BenchFile) -> BenchFile
    ensures bytes { bench_bytes result ≡ bench_bytes file }
    ensures firm { result.firm ≡ vec_len file.bytes }
{
    BenchFile {
        firm: file.bytes.len(),
        bytes: file.bytes,
    }
}

impl MemBench {
    ghost use Rattle.fsfs_memory.specs.Memdisk.MemBench.{contents_of, firm_in};

    /// An empty bench whose calls with these numbers fail. The first call is 1.
    pub fn new(alloc: Global, failing: &[u64]) -> Result<MemBench, AllocError>
        ensures files { IfOk result (λ bench. contents_of bench ≡ map.empty) }
        ensures faults { IfOk result (λ bench. bench.faults.count ≡ 0) }
    {
        Ok(MemBench {
            alloc,
            files: BenchFiles::new(alloc),
            faults: Faults::new(Vec::from_slice(alloc, failing)?),
        })
    }

    /// How often it has failed.
    pub fn faults(&self) -> u64
        ensures { result ≡ self.now.faults.count }
    {
        self.faults.count
    }

    /// The bytes of a file.
    pub fn file(&self, name: &Name) -> Option<&[u8]>
        ensures files { MatchOption result (map.get (contents_of self.now) name.now ≡ None) (λ bytes. map.get (contents_of self.now) name.now ≡ Some bytes.now) }
        ensures short { MatchOption result (0 ≤ 0) (λ bytes. length bytes.now ≤ 2 ^ 62) }
    {
        self.files.get(name)
    }

    /// Takes a file out, as one that was adopted.
    pub fn forget(&mut self, name: &Name)
        ensures files { contents_of self.new ≡ removed name.now (contents_of self.old) }
        ensures others { (q : List ℕ) → q ≢ name.now → firm_in self.new q ≡ firm_in self.old q }
        ensures faults { self.new.faults ≡ self.old.faults }
    {
        let _ = self.files.take(name);
    }

    // How many bytes more a file may have.
    fn room(&self, name: &Name) -> usize
        ensures { result + length (bytes_in (contents_of self.now) name.now) ≡ 2 ^ 62 }
    {
        match self.file(name) {
            Some(bytes) => LONGEST - bytes.len(),
            None => LONGEST,
        }
    }

    // Gives a name this file, or fails at it.
    fn settle(&mut self, name: &Name, file: BenchFile) -> Result<(), Failed>
        requires { length (bench_bytes file) ≤ 2 ^ 62 }
        ensures ok { OnOk result (contents_of self.new ≡ map.insert (contents_of self.old) name.now (bench_bytes file)) }
        ensures firm { OnOk result (firm_in self.new name.now ≡ file.firm) }
        ensures err { OnErr result (contents_of self.new ≡ contents_of self.old) }
        ensures others { (q : List ℕ) → q ≢ name.now → firm_in self.new q ≡ firm_in self.old q }
        ensures cause { HasCause self.old.faults.count self.new.faults.count result }
    {
        match self.files.put(name, file) {
            Ok(()) => Ok(()),
            Err(_) => Err(self.faults.fail()),
        }
    }
}

impl Bench for MemBench {
    ghost use Rattle.std.specs.Prelude.{Some};
    ghost use Rattle.fsfs_memory.specs.Memdisk.MemBench.{contents_of, firm_in};

    ghost contents = { λ b. Some (contents_of b) };

    ghost firm_to = { firm_in };

    ghost faults = { λ b. b.faults.count };

    fn append(&mut self, file: &Name, bytes: &[u8]) -> Result<(), Failed> {
        self.faults.call()?;
        if self.room(file) < bytes.len() {
            return Err(self.faults.fail());
        }
        let held = self.files.take(file);
        let Ok(longer) = extended(or_empty(self.alloc, held), bytes) else {
            return Err(self.faults.fail());
        };
        self.settle(file, longer)
    }

    fn write(&mut self, file: &Name, bytes: &[u8]) -> Result<(), Failed> {
        self.faults.call()?;
        if LONGEST < bytes.len() {
            return Err(self.faults.fail());
        }
        let Ok(new) = made(self.alloc, bytes) else {
            return Err(self.faults.fail());
        };
        self.settle(file, new)
    }

    fn read(
        &mut self,
        file: &Name,
        offset: u64,
        buffer: &mut [u8],
    ) -> Result<Option<usize>, Failed> {
        self.faults.call()?;
        match self.file(file) {
            None => Ok(None),
            Some(bytes) => Ok(Some(copy_from(bytes, offset, buffer))),
        }
    }

    fn len(&mut self, file: &Name) -> Result<Option<u64>, Failed> {
        self.faults.call()?;
        match self.file(file) {
            None => Ok(None),
            Some(bytes) => Ok(Some(bytes.len() as u64)),
        }
    }

    fn firm(&mut self, file: &Name) -> Result<(), Failed> {
        self.faults.call()?;
        match self.files.take(file) {
            None => Ok(()),
            Some(held) => self.settle(file, made_firm(held)),
        }
    }

    fn remove(&mut self, file: &Name) -> Result<bool, Failed> {
        self.faults.call()?;
        Ok(self.files.take(file).is_some())
    }

    ghost short = { λ b. b.short };
}
