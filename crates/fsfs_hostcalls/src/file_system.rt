// The folders of the machine, by their paths.
ghost use Rattle.std.specs.Prelude.{None};

use crate::errors::finished;
use crate::host::{HostCalls, names_in};
use fsfs_base::Name;
use fsfs_folders::CallError;
use fsfs_mount::{FileId, FileSystem};
use std::alloc::{AllocGlobal, Global};
use std::env::Env;
use std::fs::{File, Files};
use std::os::unix::fs::MetadataExt;
use std::{env, fs};

/// The folders of the machine. They tell nothing of what they hold.
#[derive(Drop)]
pub struct HostFileSystem<R: Files<File = File> + AllocGlobal + Env + Clone + Drop> {
    rt: R,
    // Whether the process may still move into the folder that is opened.
    may_move: bool,
}

impl<R: Files<File = File> + AllocGlobal + Env + Clone + Drop> HostFileSystem<R> {
    /// The folders behind a runtime.
    pub fn new(rt: R) -> HostFileSystem<R> {
        HostFileSystem {
            rt,
            may_move: false,
        }
    }

    /// The same for a program that opens one folder, and asks for no path that isn't absolute but through it: where the path of
    /// the folder is absolute the process moves into it, since the system looks up all names of a path at each call.
    pub fn for_one_folder(rt: R) -> HostFileSystem<R> {
        HostFileSystem { rt, may_move: true }
    }

    // Whether the process has moved into the folder of a path.
    fn moves_to(&mut self, path: &str) -> bool {
        let moves = self.may_move && path.starts_with('/');
        self.may_move = false;
        moves && env::set_current_dir(&self.rt, path).is_ok()
    }
}

impl<R: Files<File = File> + AllocGlobal + Env + Clone + Drop> FileSystem for HostFileSystem<R> {
    type Root = HostCalls<R>;

    ghost record_at = { λ _ _. None };

    fn open(&mut self, path: &str) -> Result<HostCalls<R>, CallError> {
        let folder = if self.moves_to(path) { "." } else { path };
        let folder = String::from_str(self.rt.alloc(), folder)?;
        Ok(HostCalls::new(self.rt.clone()?, folder))
    }

    fn drop_empty(&mut self, path: &str) {
        let _ = finished(|| fs::remove_dir(&self.rt, path));
    }

    fn id(&self, path: &str) -> Result<FileId, CallError> {
        let found = finished(|| fs::metadata(&self.rt, path))?;
        let (device, number) = (found.dev(), found.ino());
        Ok(FileId { device, number })
    }

    fn entries(&self, alloc: Global, folder: &str) -> Result<Vec<Name>, CallError> {
        finished(|| names_in(&self.rt, alloc, folder, true))
    }
}
