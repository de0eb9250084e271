//! Revisions, and the history that they make.
ghost use Rattle.std.specs.Prelude.{◌≡◌, ◌++◌, ◌∷◌, [], length, slice_get, OnOk, OnErr};
ghost use Rattle.std.specs.Option.{option_copied};

use crate::change_map::ChangeMap;
use crate::tree::Tree;
use fsfs_base::{Pairs, RevNum};
use std::alloc::{AllocError, Global};
use std::marker::Model;

/// A revision: its tree, its changed paths and its properties.
#[derive(Drop)]
pub struct Revision {
    pub tree: Tree,
    pub changes: ChangeMap,
    pub properties: Pairs,
}

impl Model for Revision {
    ghost use Rattle.fsfs_tree.specs.Revisions.{Revision};
    ghost use Rattle.fsfs_tree.specs.Codes.{coded_revision};

    ghost Value = { Revision };

    ghost coded = { coded_revision };

    ghost view = { λ a. record { tree = a.tree; changes = a.changes; properties = a.properties } };
}

/// The revisions of a repository from 0 on, oldest first.
#[derive(Drop)]
pub struct History {
    revisions: Vec<Revision>,
}

impl Model for History {
    ghost use Rattle.std.specs.Prelude.{List};
    ghost use Rattle.std.specs.Coded.{coded_list};
    ghost use Rattle.fsfs_tree.specs.Revisions.{Revision};
    ghost use Rattle.fsfs_tree.specs.Codes.{coded_revision};

    ghost Value = { List Revision };

    ghost coded = { coded_list coded_revision };

    ghost view = { λ a. a.revisions.items };
}

impl History {
    /// No revisions.
    pub fn new(alloc: Global) -> History
        ensures { result ≡ [] }
    {
        History {
            revisions: Vec::new(alloc),
        }
    }

    /// How many revisions there are.
    pub fn count(&self) -> usize
        ensures { result ≡ length self.now }
    {
        self.revisions.len()
    }

    /// The revision of this number.
    pub fn get(&self, rev: RevNum) -> Option<&Revision>
        ensures { option_copied result ≡ slice_get self.now rev }
    {
        self.at(rev.get() as usize)
    }

    /// The revision at this place.
    pub fn at(&self, place: usize) -> Option<&Revision>
        ensures { option_copied result ≡ slice_get self.now place }
    {
        self.revisions.get(place)
    }

    /// Adds the next revision.
    pub fn push(&mut self, revision: Revision) -> Result<(), AllocError>
        ensures ok { OnOk result (self.new ≡ self.old ++ revision ∷ []) }
        ensures err { OnErr result (self.new ≡ self.old) }
    {
        self.revisions.push(revision)?;
        Ok(())
    }
}
