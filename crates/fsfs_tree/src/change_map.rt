//! The changed paths of a revision.
ghost use Rattle.std.specs.Prelude.{◌≡◌, OnOk, OnErr, IfOk};
ghost use Rattle.std.specs.Option.{option_copied};
ghost use Rattle.std.specs.FinMap as map;
ghost use Rattle.fsfs_base.specs.Paths.{Path, path_cmp};

use fsfs_base::{Action, FsPath, Kind, RevNum};
use std::alloc::{AllocError, Global};
use std::collections::BTreeMap;
use std::marker::Model;

/// One changed path of a revision, as it stands in the changed-path data: of a replaced node the kind is the new one's.
#[derive(Debug, Drop)]
pub struct Change {
    pub action: Action,
    pub kind: Kind,
    pub text_changed: bool,
    pub props_changed: bool,
    /// The revision and path that it was copied from.
    pub source: Option<(RevNum, FsPath)>,
}

impl Clone for Change {
    ghost is_clone = { λ s t. t ≡ s };

    fn clone(&self) -> Result<Change, AllocError> {
        Ok(Change {
            action: self.action,
            kind: self.kind,
            text_changed: self.text_changed,
            props_changed: self.props_changed,
            source: self.source.clone()?,
        })
    }
}

/// The changed paths of a revision: a finite map from paths to changes.
#[derive(Drop)]
pub struct ChangeMap {
    changes: BTreeMap<FsPath, Change>,
}

impl Model for ChangeMap {
    ghost use Rattle.std.specs.FinMap as map;
    ghost use Rattle.fsfs_base.specs.Paths.{path_cmp};
    ghost use Rattle.fsfs_tree.specs.declared.change_map.Change.{Change};
    ghost use Rattle.fsfs_tree.specs.Codes.{coded_path, coded_change};

    ghost Value = { map.FinMap path_cmp Change };

    ghost coded = { map.code coded_path coded_change };

    ghost view = { λ a. map.from_entries a.changes.entries };
}

impl ChangeMap {
    pub fn new(alloc: Global) -> ChangeMap
        ensures { result ≡ map.empty }
    {
        ChangeMap {
            changes: BTreeMap::new(alloc),
        }
    }

    /// What happened to the path.
    pub fn get(&self, path: &FsPath) -> Option<&Change>
        ensures { option_copied result ≡ map.get self.now path.now }
    {
        self.changes.get(path)
    }

    /// Puts the change at the path.
    pub fn insert(&mut self, path: FsPath, change: Change) -> Result<(), AllocError>
        ensures ok { OnOk result (self.new ≡ map.insert self.old path change) }
        ensures err { OnErr result (self.new ≡ self.old) }
    {
        self.changes.insert(path, change)?;
        Ok(())
    }
}

impl Clone for ChangeMap {
    ghost is_clone = { λ s t. t ≡ s };

    fn clone(&self) -> Result<ChangeMap, AllocError> {
        Ok(ChangeMap {
            changes: self.changes.clone()?,
        })
    }
}
