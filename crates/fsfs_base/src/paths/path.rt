//! Paths as lists of names.
ghost use Rattle.std.specs.Prelude.{◌≡◌, ◌≤◌, ◌++◌, ◌∷◌, [], map, length, take, drop, Some, IfOk};
ghost use Rattle.std.specs.String.{string_bytes};
ghost use Rattle.fsfs_base.specs.Paths.{Path, path_cmp, same_path, is_above, covers, is_root};
ghost use Rattle.std.specs.Cmp.Lexicographic.{lists_equiv, nat_list_eq_equiv};
ghost use Rattle.std.specs.Cmp.{partial_equiv_from_equiv};
ghost use Rattle.fsfs_base.specs.Paths.{path_partial_cmp, path_cmp_total, path_po, paths_tie};

use std::alloc::{AllocError, Global};
use std::cmp::Ordering;
use std::marker::Model;

/// A path, from the root down: `/` has no names.
#[derive(Debug, Drop)]
pub struct FsPath {
    pub(crate) names: Vec<String>,
}

impl Model for FsPath {
    ghost use Rattle.std.specs.Prelude.{map};
    ghost use Rattle.std.specs.String.{string_bytes};
    ghost use Rattle.fsfs_base.specs.Paths.{Path};

    ghost Value = { Path };

    ghost view = { λ a. map string_bytes a.names.items };
}

impl PartialEq for FsPath {
    ghost eq = { same_path };

    ghost laws = { partial_equiv_from_equiv (lists_equiv nat_list_eq_equiv) };

    fn eq(&self, other: &Self) -> bool {
        self.names == other.names
    }
}

impl Eq for FsPath {
    ghost laws = { lists_equiv nat_list_eq_equiv };
}

impl PartialOrd for FsPath {
    ghost partial_cmp = { path_partial_cmp };

    ghost laws = { path_po };

    fn partial_cmp(&self, other: &Self) -> Option<Ordering> {
        Some(self.cmp(other))
    }
}

impl Ord for FsPath {
    ghost cmp = { path_cmp };

    ghost total = { path_cmp_total };

    ghost matches_partial_cmp = { λ x y i. Some (path_cmp x y) };

    ghost matches_eq = { paths_tie };

    fn cmp(&self, other: &Self) -> Ordering {
        self.names.cmp(&other.names)
    }
}

impl Clone for FsPath {
    ghost is_clone = { λ s t. t ≡ s };

    fn clone(&self) -> Result<FsPath, AllocError> {
        Ok(FsPath {
            names: self.names.clone()?,
        })
    }
}

impl FsPath {
    /// `/`.
    pub fn root(alloc: Global) -> FsPath
        ensures { result ≡ [] }
    {
        FsPath {
            names: Vec::new(alloc),
        }
    }

    /// Whether `below` is this path or lies below it.
    pub fn covers(&self, below: &FsPath) -> bool
        ensures { result ≡ covers self.now below.now }
    {
        names_begin(&self.names, &below.names)
    }

    /// Whether this path lies strictly below `above`.
    pub fn is_below(&self, above: &FsPath) -> bool
        ensures { result ≡ is_above above.now self.now }
    {
        above.covers(self) && !self.covers(above)
    }

    /// The path of this name in this directory.
    pub fn child(&self, alloc: Global, name: &str) -> Result<FsPath, AllocError>
        ensures { IfOk result (λ p. p ≡ self.now ++ name.now ∷ []) }
    {
        let mut names = self.names.clone()?;
        names.push(String::from_str(alloc, name)?)?;
        Ok(FsPath { names })
    }

    /// How many names it has.
    pub fn depth(&self) -> usize
        ensures { result ≡ length self.now }
    {
        self.names.len()
    }

    /// The path of the first `count` names.
    pub fn prefix(&self, alloc: Global, count: usize) -> Result<FsPath, AllocError>
        requires { count ≤ length self.now }
        ensures { IfOk result (λ p. p ≡ take count self.now) }
    {
        Ok(FsPath {
            names: self.names[..count].to_vec(alloc)?,
        })
    }

    /// This path with its first `count` names replaced by those of another.
    pub fn moved(&self, count: usize, front: &FsPath) -> Result<FsPath, AllocError>
        requires { count ≤ length self.now }
        ensures { IfOk result (λ p. p ≡ front.now ++ drop count self.now) }
    {
        let mut names = front.names.clone()?;
        names.extend_from_slice(&self.names[count..])?;
        Ok(FsPath { names })
    }

    pub fn is_root(&self) -> bool
        ensures { result ≡ is_root self.now }
    {
        self.names.is_empty()
    }
}

fn names_begin(above: &[String], below: &[String]) -> bool
    ensures { result ≡ covers (map string_bytes above.now) (map string_bytes below.now) }
{
    match above {
        [] => true,
        [name, above @ ..] => match below {
            [] => false,
            [other, below @ ..] => name == other && names_begin(above, below),
        },
    }
}
