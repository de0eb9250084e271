// The files of a bench in memory.
ghost use Rattle.std.specs.Prelude.{◌≡◌, ◌≢◌, ℕ, List, None, Some, option_map, OnOk, OnErr, MatchOption};
ghost use Rattle.std.specs.FinMap as map;
ghost use Rattle.fsfs_memory.specs.Memdisk.BenchFiles.{bench_bytes, firm_of, held_files, held_firm};

use fsfs_base::Name;
use std::alloc::{AllocError, Global};
use std::collections::BTreeMap;

/// The bytes of a file, and how many of them are firm.
#[derive(Drop)]
pub struct BenchFile {
    pub bytes: Vec<u8>,
    pub firm: usize,
}

/// Files by name. The time of a look-up grows with the logarithm of their number.
#[derive(Drop)]
pub struct BenchFiles {
    pub by_name: BTreeMap<Name, BenchFile>,
}

impl BenchFiles {
    pub fn new(alloc: Global) -> BenchFiles
        ensures files { held_files result.by_name.entries ≡ map.empty }
    {
        BenchFiles {
            by_name: BTreeMap::new(alloc),
        }
    }

    /// The bytes of a file.
    pub fn get(&self, name: &Name) -> Option<&[u8]>
        ensures { MatchOption result (map.get (held_files self.now.by_name.entries) name.now ≡ None) (λ bytes. map.get (held_files self.now.by_name.entries) name.now ≡ Some bytes.now) }
    {
        match self.by_name.get(name) {
            Some(file) => Some(file.bytes.as_slice()),
            None => None,
        }
    }

    /// Gives a name this file.
    pub fn put(&mut self, name: &Name, file: BenchFile) -> Result<(), AllocError>
        ensures ok { OnOk result (held_files self.new.by_name.entries ≡ map.insert (held_files self.old.by_name.entries) name.now (bench_bytes file)) }
        ensures firm { OnOk result (held_firm self.new.by_name.entries name.now ≡ file.firm) }
        ensures others { (q : List ℕ) → q ≢ name.now → held_firm self.new.by_name.entries q ≡ held_firm self.old.by_name.entries q }
        ensures err { OnErr result (self.new.by_name.entries ≡ self.old.by_name.entries) }
    {
        self.by_name.insert(name.copy(), file)?;
        Ok(())
    }

    /// Takes a file out.
    pub fn take(&mut self, name: &Name) -> Option<BenchFile>
        ensures files { held_files self.new.by_name.entries ≡ map.remove (held_files self.old.by_name.entries) name.now }
        ensures found { option_map bench_bytes result ≡ map.get (held_files self.old.by_name.entries) name.now }
        ensures was_firm { firm_of result ≡ held_firm self.old.by_name.entries name.now }
        ensures firm { held_firm self.new.by_name.entries name.now ≡ 0 }
        ensures others { (q : List ℕ) → q ≢ name.now → held_firm self.new.by_name.entries q ≡ held_firm self.old.by_name.entries q }
    {
        self.by_name.remove(name)
    }
}
