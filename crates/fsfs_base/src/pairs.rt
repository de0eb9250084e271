//! Names with values: a node's or a revision's properties, a directory's entries.
ghost use Rattle.std.specs.Prelude.{◌≡◌, [], List, ℕ, Option, option_map, map, OnOk, OnErr};
ghost use Rattle.std.specs.Cmp.Lexicographic.{slice_cmp};
ghost use Rattle.std.specs.Ordering.{nat_cmp};
ghost use Rattle.std.specs.Map.{lookup, remove_entry};
ghost use Rattle.std.specs.BTreeMap.{insert_entry, is_at};

use std::alloc::{AllocError, Global};
use std::collections::BTreeMap;
use std::marker::Model;

/// A map from names to values, both of them bytes. A contract sees it as the list of its pairs, by the names' bytes.
#[derive(Debug, Drop)]
pub struct Pairs {
    pairs: BTreeMap<Vec<u8>, Vec<u8>>,
}

impl Model for Pairs {
    ghost use Rattle.std.specs.Prelude.{List, ℕ, map};

    ghost Value = { List (List ℕ × List ℕ) };

    ghost view = { λ a. map (λ p. (p.0.items, p.1.items)) a.pairs.entries };
}

impl Pairs {
    /// No pairs.
    pub fn new(alloc: Global) -> Pairs
        ensures { result ≡ [] }
    {
        Pairs {
            pairs: BTreeMap::new(alloc),
        }
    }

    /// The value of this name.
    pub fn get(&self, name: &[u8]) -> Option<&Vec<u8>>
        ensures { option_map (λ value. value.now.items) result ≡ lookup (is_at (slice_cmp nat_cmp name.now)) self.now }
    {
        self.pairs.get(name)
    }

    /// The pairs as a map.
    pub fn as_map(&self) -> &BTreeMap<Vec<u8>, Vec<u8>>
        ensures { map (λ p. (p.0.items, p.1.items)) result.now.entries ≡ self.now }
    {
        &self.pairs
    }

    /// Gives the name this value.
    pub fn set(&mut self, name: Vec<u8>, value: Vec<u8>) -> Result<(), AllocError>
        ensures ok { OnOk result (self.new ≡ insert_entry (slice_cmp nat_cmp) self.old name.items value.items) }
        ensures err { OnErr result (self.new ≡ self.old) }
    {
        self.pairs.insert(name, value)?;
        Ok(())
    }

    /// Takes the name away with its value, if it is there.
    pub fn remove(&mut self, name: &[u8])
        ensures { self.new ≡ remove_entry (is_at (slice_cmp nat_cmp name.now)) self.old }
    {
        self.pairs.remove(name);
    }
}

/// The entries of a map.
impl From<BTreeMap<Vec<u8>, Vec<u8>>> for Pairs {
    ghost from_gives = { λ entries pairs. pairs ≡ map (λ p. (p.0.items, p.1.items)) entries.entries };

    fn from(entries: BTreeMap<Vec<u8>, Vec<u8>>) -> Pairs {
        Pairs { pairs: entries }
    }
}

impl Clone for Pairs {
    ghost is_clone = { λ s t. t ≡ s };

    fn clone(&self) -> Result<Pairs, AllocError> {
        Ok(Pairs {
            pairs: self.pairs.clone()?,
        })
    }
}
