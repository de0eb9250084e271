// Folders whose names may not be firm.
ghost use Rattle.std.specs.Prelude.{◌≡◌, [], true, OnOk};
ghost use Rattle.fsfs_folders.specs.System.Paths.{has_path};
ghost use Rattle.fsfs_folders.specs.System.Remains.{AreWithin};

use crate::Path;
use std::alloc::{AllocError, Global};
use std::marker::Model;

/// Folders, each once. A contract sees the list of their paths.
#[derive(Drop)]
pub struct Noted {
    paths: Vec<Path>,
}

impl Model for Noted {
    ghost use Rattle.std.specs.Prelude.{List, ℕ};

    ghost Value = { List (List ℕ) };

    ghost view = { λ noted. noted.paths.items };
}

impl Noted {
    /// None.
    pub fn new(alloc: Global) -> Noted
        ensures { result ≡ [] }
    {
        Noted {
            paths: Vec::new(alloc),
        }
    }

    /// Notes a folder, if it isn't noted.
    pub fn add(&mut self, path: Path) -> Result<(), AllocError>
        ensures has { OnOk result (has_path self.new path ≡ true) }
        ensures more { AreWithin self.old self.new }
    {
        for noted in &self.paths {
            if noted.is(&path) {
                return Ok(());
            }
        }
        self.paths.push(path)?;
        Ok(())
    }

    /// The folders.
    pub fn paths(&self) -> &[Path]
        ensures { result.now ≡ self.now }
    {
        self.paths.as_slice()
    }

    /// Forgets all.
    pub fn clear(&mut self)
        ensures { self.new ≡ [] }
    {
        self.paths.clear();
    }
}
