//! Trees: what stands at each path.
ghost use Rattle.std.specs.Prelude.{◌≡◌, ◌||◌, is_some, OnOk, OnErr, IfOk};
ghost use Rattle.std.specs.BTreeSet as set;
ghost use Rattle.std.specs.Option.{option_copied};
ghost use Rattle.std.specs.FinMap as map;
ghost use Rattle.fsfs_base.specs.Paths.{Path, path_cmp};
ghost use Rattle.fsfs_tree.specs.Entries.{is_entry, entry_count};

use crate::node::Node;
use fsfs_base::FsPath;
use std::alloc::{AllocError, Global};
use std::collections::{BTreeMap, BTreeSet};
use std::marker::Model;

/// A finite map from paths to nodes.
#[derive(Drop)]
pub struct Tree {
    nodes: BTreeMap<FsPath, Node>,
}

impl Model for Tree {
    ghost use Rattle.std.specs.FinMap as map;
    ghost use Rattle.fsfs_base.specs.Paths.{path_cmp};
    ghost use Rattle.fsfs_tree.specs.Nodes.{Node as Stands};
    ghost use Rattle.fsfs_tree.specs.Codes.{coded_path, coded_node};

    ghost Value = { map.FinMap path_cmp Stands };

    ghost coded = { map.code coded_path coded_node };

    ghost view = { λ a. map.from_entries a.nodes.entries };
}

impl Tree {
    pub fn new(alloc: Global) -> Tree
        ensures { result ≡ map.empty }
    {
        Tree {
            nodes: BTreeMap::new(alloc),
        }
    }

    /// What stands at the path.
    pub fn get(&self, path: &FsPath) -> Option<&Node>
        ensures { option_copied result ≡ map.get self.now path.now }
    {
        self.nodes.get(path)
    }

    /// Puts the node at the path.
    pub fn insert(&mut self, path: FsPath, node: Node) -> Result<(), AllocError>
        ensures ok { OnOk result (self.new ≡ map.insert self.old path node) }
        ensures err { OnErr result (self.new ≡ self.old) }
    {
        self.nodes.insert(path, node)?;
        Ok(())
    }

    /// How many entries the directory at this path has.
    pub fn entry_count(&self, directory: &FsPath) -> usize
        ensures { result ≡ entry_count self.now directory.now }
    {
        let mut count = 0;
        for path in self.nodes.keys() {
            if is_entry(directory, path) {
                count += 1;
            }
        }
        count
    }

    /// Adds each path of the tree to the set.
    pub fn add_paths(&self, all: &mut BTreeSet<FsPath>) -> Result<(), AllocError>
        ensures { OnOk result ((q : Path) → set.contains path_cmp all.new q ≡ (set.contains path_cmp all.old q || is_some (map.get self.now q))) }
    {
        for path in self.nodes.keys() {
            all.insert(path.clone()?)?;
        }
        Ok(())
    }
}

// Whether the path is one name below the directory.
fn is_entry(directory: &FsPath, path: &FsPath) -> bool
    ensures { result ≡ is_entry directory.now path.now }
{
    directory.covers(path)
        && path.depth() > directory.depth()
        && path.depth() - directory.depth() == 1
}

impl Clone for Tree {
    ghost is_clone = { λ s t. t ≡ s };

    fn clone(&self) -> Result<Tree, AllocError> {
        Ok(Tree {
            nodes: self.nodes.clone()?,
        })
    }
}
