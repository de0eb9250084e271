// The calls of the system, one for one.
ghost use Rattle.std.specs.Prelude.{◌≡◌, ◌≤◌, length, min, false, IfOk, None, refl};

use crate::errors::{error_of, finished};
use fsfs_base::Name;
use fsfs_folders::{CallError, Calls, Mode, Path};
use std::alloc::{AllocGlobal, Global};
use std::fs::{File, Files, Metadata, Permissions, TryLockError};
use std::io::{ErrorKind, Write};
use std::os::unix::fs::{FileExt, MetadataExt, PermissionsExt};
use std::{fs, io};

/// The calls on what stands below a folder of the machine. They tell nothing of what they did.
#[derive(Drop)]
pub struct HostCalls<R: Files<File = File> + AllocGlobal + Clone + Drop> {
    rt: R,
    folder: String,
    // What is locked: as long as these are open.
    locked: Vec<File>,
    // A name below the folder stands for what it leads to, if it is a link.
    follows: bool,
}

// The longest name in a listing.
const LONGEST_NAME: usize = 128;

const PASSED_OVER: [ErrorKind; 2] = [ErrorKind::InvalidFilename, ErrorKind::NotFound];

fn read_some(file: &File, offset: u64, buffer: &mut [u8]) -> Result<usize, CallError>
    ensures { IfOk result (λ n. n ≤ min (length buffer.new) (length buffer.old)) }
{
    for _ in 0..u64::MAX {
        match file.read_at(buffer, offset) {
            Ok(count) => return Ok(count),
            Err(error) if error.kind() == ErrorKind::Interrupted => {}
            Err(error) => return Err(error_of(&error)),
        }
    }
    Err(CallError::Failed)
}

// A file that was opened to append is written at its end.
fn write_once(mut file: &File, bytes: &[u8]) -> io::Result<usize> {
    file.write(bytes)
}

/// The names in a folder, of all that stands there; or of the folders, but for those that went meanwhile, are too long or no text.
pub fn names_in<R: Files + AllocGlobal + Clone + Drop>(
    rt: &R,
    alloc: Global,
    folder: &str,
    all: bool,
) -> io::Result<Vec<Name>> {
    let mut found = Vec::new(alloc);
    for entry in fs::read_dir(rt, folder)? {
        match entry.and_then(|it| Ok((all || it.file_type()?.is_dir(), it))) {
            Ok((true, it)) if it.file_name().len() <= LONGEST_NAME => {
                found.push(Name::new(it.file_name()))?;
            }
            Ok((true, _)) if all => return Err(io::Error::from(ErrorKind::InvalidFilename)),
            Err(error) if all || !PASSED_OVER.contains(&error.kind()) => return Err(error),
            _ => {}
        }
    }
    Ok(found)
}

impl<R: Files<File = File> + AllocGlobal + Clone + Drop> HostCalls<R> {
    /// The calls on what stands below this folder, where a link stands for what it leads to.
    pub fn new(rt: R, folder: String) -> HostCalls<R> {
        let locked = Vec::new(rt.alloc());
        HostCalls {
            rt,
            folder,
            locked,
            follows: true,
        }
    }

    fn path_of(&self, path: &Path) -> Result<String, CallError> {
        let mut whole = String::with_capacity(self.rt.alloc(), 256)?;
        whole.push_str(self.folder.as_str())?;
        whole.push('/')?;
        whole.push_str(path.as_str())?;
        Ok(whole)
    }

    // Makes a call on a path.
    fn at<T, F: Fn(&str) -> io::Result<T> + Drop>(
        &self,
        path: &Path,
        call: F,
    ) -> Result<T, CallError>
        requires { F.IsAlwaysCallable call }
    {
        let path = self.path_of(path)?;
        finished(|| call(path.as_str()))
    }

    fn found(&self, path: &Path, follows: bool) -> Result<Option<Metadata>, CallError> {
        let found = self.at(path, |path| match follows {
            true => fs::metadata(&self.rt, path),
            false => fs::symlink_metadata(&self.rt, path),
        });
        match found {
            Err(CallError::NotFound) => Ok(None),
            found => Ok(Some(found?)),
        }
    }

    fn is_dir(&self, path: &Path, follows: bool) -> Result<bool, CallError> {
        Ok(self.found(path, follows)?.is_some_and(|it| it.is_dir()))
    }

    // What is no file is refused before it is opened: a pipe would be waited for, and a device has no end.
    fn open_file(&self, path: &Path, append: bool) -> Result<File, CallError> {
        let mut how = File::options();
        let _ = how.read(true).append(append);
        match self.found(path, self.follows)? {
            Some(it) if it.is_file() => self.at(path, |path| how.open(&self.rt, path)),
            Some(_) => Err(CallError::OtherKind),
            None => Err(CallError::NotFound),
        }
    }

    // The slash refuses what is no folder, without waiting for it.
    fn open_folder(&self, path: &Path) -> Result<File, CallError> {
        let mut path = self.path_of(path)?;
        path.push('/')?;
        finished(|| File::open(&self.rt, path.as_str()))
    }

    // Takes the lock of what was opened under a path.
    fn hold(&mut self, path: &Path, file: File) -> Result<(), CallError> {
        match file.try_lock() {
            Ok(()) => {}
            Err(TryLockError::WouldBlock) => return Err(CallError::Locked),
            Err(TryLockError::Error(error)) => return Err(error_of(&error)),
        }
        // Its last holder may have taken the name away: then this locks nothing.
        let open = finished(|| file.metadata())?;
        match self.found(path, true)? {
            Some(named) if (open.dev(), open.ino()) == (named.dev(), named.ino()) => {}
            _ => return Err(CallError::Locked),
        }
        self.locked.push(file)?;
        Ok(())
    }
}

impl<R: Files<File = File> + AllocGlobal + Clone + Drop> Calls for HostCalls<R> {
    type File = File;

    ghost history = { λ _. None };

    ghost is_link = { λ _ _. false };

    fn lock_folder(&mut self, path: &Path) -> Result<(), CallError> {
        let folder = self.open_folder(path)?;
        self.hold(path, folder)
    }

    fn lock_file(&mut self, path: &Path, mode: Option<Mode>) -> Result<(), CallError> {
        let file = match self.create(path, mode) {
            Err(CallError::Exists) => self.open_file(path, true)?,
            made => made?,
        };
        self.hold(path, file)
    }

    fn unlock(&mut self) {
        self.locked.clear();
    }

    fn make_folder(&mut self, path: &Path, mode: Option<Mode>) -> Result<(), CallError> {
        match (self.at(path, |path| fs::create_dir(&self.rt, path)), mode) {
            (Err(CallError::Exists), _) if self.is_dir(path, true)? => Ok(()),
            (Ok(()), Some(mode)) => {
                self.at(
                    path,
                    |path| fs::set_permissions(&self.rt, path, Permissions::from_mode(mode.bits)),
                )
            }
            (made, _) => made,
        }
    }

    fn is_folder(&mut self, path: &Path) -> Result<bool, CallError> {
        self.is_dir(path, false)
    }

    fn drop_folder(&mut self, path: &Path) -> Result<(), CallError> {
        self.at(path, |path| fs::remove_dir(&self.rt, path))
    }

    fn drop_tree(&mut self, path: &Path) -> Result<(), CallError> {
        self.at(path, |path| fs::remove_dir_all(&self.rt, path))
    }

    fn mode(&mut self, path: &Path) -> Result<Option<Mode>, CallError> {
        Ok(self.found(path, true)?.map(|it| Mode::of(it.mode())))
    }

    fn folders_in(&mut self, alloc: Global, folder: &Path) -> Result<Vec<Name>, CallError> {
        self.at(folder, |path| names_in(&self.rt, alloc, path, false))
    }

    fn create(&mut self, path: &Path, mode: Option<Mode>) -> Result<File, CallError> {
        let mut how = File::options();
        let _ = how.read(true).append(true).create_new(true);
        let made = self.at(path, |path| how.open(&self.rt, path))?;
        if let Some(mode) = mode {
            self.set_mode(&made, mode)?;
        }
        Ok(made)
    }

    fn set_mode(&mut self, file: &File, mode: Mode) -> Result<(), CallError> {
        finished(|| file.set_permissions(Permissions::from_mode(mode.bits)))
    }

    fn open(&mut self, path: &Path) -> Result<File, CallError> {
        self.open_file(path, false)
    }

    fn open_to_append(&mut self, path: &Path) -> Result<File, CallError> {
        self.open_file(path, true)
    }

    fn length(&mut self, file: &File) -> Result<u64, CallError> {
        Ok(finished(|| file.metadata())?.len())
    }

    fn read_at(&mut self, file: &File, offset: u64, buffer: &mut [u8]) -> Result<usize, CallError> {
        read_some(file, offset, buffer)
    }

    fn append(&mut self, file: &File, bytes: &[u8]) -> Result<usize, CallError> {
        match finished(|| write_once(file, bytes))? {
            count if 0 < count && count <= bytes.len() => Ok(count),
            _ => Err(CallError::Failed),
        }
    }

    fn sync_file(&mut self, file: &File) -> Result<(), CallError> {
        finished(|| file.sync_all())
    }

    fn sync_folder(&mut self, path: &Path) -> Result<(), CallError> {
        let folder = self.open_folder(path)?;
        finished(|| folder.sync_all())
    }

    fn rename(&mut self, from: &Path, to: &Path) -> Result<(), CallError> {
        let from = self.path_of(from)?;
        self.at(to, |to| fs::rename(&self.rt, from.as_str(), to))
    }

    fn remove(&mut self, path: &Path) -> Result<(), CallError> {
        self.at(path, |path| fs::remove_file(&self.rt, path))
    }

    fn firmed(&mut self) -> Result<(), CallError> {
        Ok(())
    }

    fn part(&mut self, folder: &Path) -> Result<HostCalls<R>, CallError> {
        let mut part = HostCalls::new(self.rt.clone()?, self.path_of(folder)?);
        part.follows = false;
        Ok(part)
    }

    fn empty_part(&mut self, folder: &Path) -> Result<HostCalls<R>, CallError> {
        self.drop_tree(folder)?;
        self.make_folder(folder, None)?;
        self.part(folder)
    }

    fn take(&mut self, part: &mut HostCalls<R>, from: &Path, to: &Path) -> Result<(), CallError> {
        let from = part.path_of(from)?;
        self.at(to, |to| fs::rename(&self.rt, from.as_str(), to))
    }

    ghost all_tell = { λ _ _. refl };
}
