//! The entries of a directory by their names.
ghost use Rattle.std.specs.Prelude.{◌≡◌, ℕ, List, Some, IfOk, OnOk, option_map, if◌then◌else◌};
ghost use Rattle.std.specs.String.{string_bytes};
ghost use Rattle.fsfs_base.specs.Paths.{same_name};
ghost use Rattle.fsfs_revision.specs.Shows.Reading.{named};
ghost use Rattle.fsfs_dag.specs.Views.{entry_value, entry_values};
ghost use Rattle.fsfs_history.specs.KeptDirs.{by_name};

use fsfs_dag::DirEntry;
use std::alloc::{AllocError, Global};
use std::collections::BTreeMap;

/// Entries by the bytes of their names, so that one is found without a look at each.
#[derive(Drop)]
pub struct EntriesByName {
    entries: BTreeMap<Vec<u8>, DirEntry>,
}

fn name_of(alloc: Global, entry: &DirEntry) -> Result<Vec<u8>, AllocError>
    ensures { IfOk result (λ name. name.items ≡ string_bytes entry.now.name) }
{
    let mut name = Vec::new(alloc);
    name.extend_from_slice(entry.name.as_bytes())?;
    Ok(name)
}

impl EntriesByName {
    /// The entries; of those of one name the first.
    pub fn of(alloc: Global, mut left: Vec<DirEntry>) -> Result<EntriesByName, AllocError>
        ensures { IfOk result (λ found. (name : List ℕ) → by_name found name ≡ named name (entry_values left.items)) }
    {
        let mut found = EntriesByName {
            entries: BTreeMap::new(alloc),
        };
        while let Some(entry) = left.pop() {
            found.put(alloc, entry)?;
        }
        Ok(found)
    }

    // Puts an entry at its name.
    fn put(&mut self, alloc: Global, entry: DirEntry) -> Result<(), AllocError>
        ensures { OnOk result ((name : List ℕ) → by_name self.new name ≡ (if same_name (string_bytes entry.name) name then Some (entry_value entry) else by_name self.old name)) }
    {
        let name = name_of(alloc, &entry)?;
        self.entries.insert(name, entry)?;
        Ok(())
    }

    /// The entry of this name.
    pub fn get(&self, name: &str) -> Option<&DirEntry>
        ensures { option_map (λ entry. entry_value entry.now) result ≡ by_name self.now name.now }
    {
        self.entries.get(name.as_bytes())
    }
}
