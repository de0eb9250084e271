// Files by name, kept in memory.
ghost use Rattle.std.specs.Prelude.{◌≡◌, OnOk, OnErr, IfOk, MatchOption, None, Some, map as each, option_map};
ghost use Rattle.std.specs.FinMap as map;
ghost use Rattle.fsfs_base.specs.Files.{renamed};
ghost use Rattle.fsfs_memory.specs.Memdisk.MemFiles.{content};

use fsfs_base::Name;
use std::alloc::{AllocError, Global};
use std::collections::BTreeMap;
use std::marker::Model;
use std::sync::Arc;

/// The bytes of a file, shared by the files and the operations that have them.
pub type Bytes = Arc<Vec<u8>>;

/// Files by name. A contract sees them as a finite map from names to bytes.
/// The time of a look-up grows with the logarithm of the number of files.
#[derive(Drop)]
pub struct MemFiles {
    by_name: BTreeMap<Name, Bytes>,
}

impl Model for MemFiles {
    ghost use Rattle.std.specs.Coded.{coded_ℕ, coded_list};
    ghost use Rattle.std.specs.FinMap as map;
    ghost use Rattle.fsfs_base.specs.Files.{Files};
    ghost use Rattle.fsfs_memory.specs.Memdisk.MemFiles.{files_by, content};

    ghost Value = { Files };

    ghost coded = { map.code (coded_list coded_ℕ) (coded_list coded_ℕ) };

    ghost view = { λ a. files_by content a.by_name.entries };
}

impl MemFiles {
    /// No files.
    pub fn new(alloc: Global) -> MemFiles
        ensures { result ≡ map.empty }
    {
        MemFiles {
            by_name: BTreeMap::new(alloc),
        }
    }

    /// The bytes of a file.
    pub fn get(&self, name: &Name) -> Option<&[u8]>
        ensures { MatchOption result (map.get self.now name.now ≡ None) (λ bytes. map.get self.now name.now ≡ Some bytes.now) }
    {
        match self.by_name.get(name) {
            Some(bytes) => Some(bytes.as_slice()),
            None => None,
        }
    }

    /// The same, as a share in them.
    pub fn share(&self, name: &Name) -> Result<Option<Bytes>, AllocError>
        ensures { IfOk result (λ found. option_map content found ≡ map.get self.now name.now) }
    {
        match self.by_name.get(name) {
            Some(bytes) => Ok(Some(bytes.clone()?)),
            None => Ok(None),
        }
    }

    /// Gives a name these bytes.
    pub fn insert(&mut self, name: Name, bytes: Bytes) -> Result<(), AllocError>
        ensures ok { OnOk result (self.new ≡ map.insert self.old name (content bytes)) }
        ensures err { OnErr result (self.new ≡ self.old) }
    {
        self.by_name.insert(name, bytes)?;
        Ok(())
    }

    /// Takes a name away, if it is there.
    pub fn remove(&mut self, name: &Name)
        ensures { self.new ≡ map.remove self.old name.now }
    {
        self.by_name.remove(name);
    }

    /// Takes one name away and gives another these bytes, or takes it away too where there are none.
    pub fn replace(
        &mut self,
        from: &Name,
        to: &Name,
        bytes: Option<Bytes>,
    ) -> Result<(), AllocError>
        ensures ok { OnOk result (self.new ≡ renamed self.old from.now to.now (option_map content bytes)) }
        ensures err { OnErr result (self.new ≡ self.old) }
    {
        match bytes {
            None => {
                self.remove(from);
                self.remove(to);
                Ok(())
            }
            Some(bytes) => {
                self.insert(to.copy(), bytes)?;
                if !from.is(to) {
                    self.remove(from);
                }
                Ok(())
            }
        }
    }

    /// The names and their bytes, in the order of the names.
    pub fn list(&self, alloc: Global) -> Result<Vec<(&str, &[u8])>, AllocError>
        ensures { IfOk result (λ files. each (λ file. (file.0.now, file.1.now)) files.items ≡ map.entries self.now) }
    {
        let mut files = Vec::new(alloc);
        for (name, bytes) in self.by_name.iter() {
            files.push((name.as_str(), bytes.as_slice()))?;
        }
        Ok(files)
    }
}

impl Clone for MemFiles {
    ghost is_clone = { λ files copy. copy ≡ files };

    /// The same files. Their bytes are shared.
    fn clone(&self) -> Result<MemFiles, AllocError> {
        Ok(MemFiles {
            by_name: self.by_name.clone()?,
        })
    }
}
