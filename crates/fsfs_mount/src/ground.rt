// Where a repository may be made: below no other one, and over no files but those of a creation that was cut off.
use crate::file_system::{FileId, FileSystem};
use fsfs_base::Name;
use fsfs_folders::CallError;
use std::alloc::Global;

// The files that are there where a repository is.
const PUBLISHED: [&str; 2] = ["db/format", "format"];

/// What a creation leaves that was cut off: it is made before the first file, and taken away behind the last.
pub const MARK: &str = "db/creation.beside";

// The same in `db`.
const MARK_IN_DB: &str = "creation.beside";

// No path of the system has more levels.
const MOST_LEVELS: usize = 4096;

// The path of a name below a folder.
fn within(alloc: Global, folder: &str, name: &str) -> Result<String, CallError> {
    Ok(format!(in alloc; "{folder}/{name}")?)
}

/// Whether something has a name below a folder.
pub fn is_there<F: FileSystem>(files: &F, alloc: Global, folder: &str, name: &str) -> bool {
    match within(alloc, folder, name) {
        Ok(path) => files.id(path.as_str()).is_ok(),
        Err(_) => false,
    }
}

// Whether a folder holds a repository. One that can't be entered shows none.
fn holds_repository<F: FileSystem>(files: &F, alloc: Global, folder: &str) -> bool {
    PUBLISHED
        .iter()
        .all(|name| is_there(files, alloc, folder, name))
}

// Which folder has a path, as far as it can be looked at.
fn id_of<F: FileSystem>(files: &F, path: &str) -> Option<FileId> {
    files.id(path).ok()
}

/// Refuses the path of a folder that is below a repository's. A folder above that can't be entered ends the look.
pub fn refuse_below_repository<F: FileSystem>(
    files: &F,
    alloc: Global,
    path: &str,
) -> Result<(), CallError> {
    let mut above = within(alloc, path, "..")?;
    for _ in 0..MOST_LEVELS {
        if holds_repository(files, alloc, above.as_str()) {
            return Err(CallError::Exists);
        }
        let next = within(alloc, above.as_str(), "..")?;
        let (here, there) = (id_of(files, above.as_str()), id_of(files, next.as_str()));
        if there.is_none() || here == there {
            break;
        }
        above = next;
    }
    Ok(())
}

// What stands in `db` after a creation that was cut off.
const OWN: [&str; 13] = [
    "creation",
    "current",
    "format-next",
    "fs-type",
    "min-unpacked-rev",
    "revprops",
    "revs",
    "transactions",
    "txn-current",
    "txn-current-lock",
    "txn-protorevs",
    "uuid",
    "write-lock",
];

// Whether a creation that is cut off may leave this name in this folder. Beside a name stands what was written for it.
fn is_left(folder: &str, name: &str) -> bool {
    let name = name.strip_suffix(".beside").unwrap_or(name);
    if folder.is_empty() {
        name == "db" || name == "format"
    } else if folder == "db" {
        OWN.iter().any(|own| *own == name)
    } else {
        name == "0" && !folder.starts_with("db/t")
    }
}

// Whether a folder that a creation makes has this name in this folder.
fn is_folder_of_creation(folder: &str, name: &str) -> bool {
    if folder.is_empty() {
        name == "db"
    } else if folder == "db" {
        FOLDERS
            .iter()
            .any(|own| own.strip_prefix("db/") == Some(name))
    } else {
        name == "0" && (folder == "db/revs" || folder == "db/revprops")
    }
}

// The folders that a creation makes, in a folder that is there.
const FOLDERS: [&str; 7] = [
    "db",
    "db/revs",
    "db/revs/0",
    "db/revprops",
    "db/revprops/0",
    "db/transactions",
    "db/txn-protorevs",
];

// Refuses a folder with anything but what a creation leaves that is cut off: where its mark isn't there, folders alone. `false`: there
// is no such folder.
fn has_only_left<F: FileSystem>(
    files: &F,
    alloc: Global,
    path: &str,
    folder: &str,
    is_marked: bool,
) -> Result<bool, CallError> {
    let names = match files.entries(alloc, within(alloc, path, folder)?.as_str()) {
        Ok(names) => names,
        Err(CallError::NotFound) => return Ok(false),
        Err(error) => return Err(error),
    };
    let is_own = |name: &Name| {
        if is_marked {
            is_left(folder, name.as_str())
        } else {
            is_folder_of_creation(folder, name.as_str())
        }
    };
    if names.iter().all(is_own) {
        Ok(true)
    } else {
        Err(CallError::Exists)
    }
}

/// Refuses the path of a folder with anything but what a creation leaves that is cut off. Which folders of a creation aren't there
/// yet, those above first.
pub fn absent_folders<F: FileSystem>(
    files: &F,
    alloc: Global,
    path: &str,
) -> Result<Vec<Name>, CallError> {
    let mut absent = Vec::new(alloc);
    let is_marked = is_there(files, alloc, path, MARK);
    let _ = has_only_left(files, alloc, path, "", is_marked)?;
    for folder in FOLDERS {
        if !has_only_left(files, alloc, path, folder, is_marked)? {
            absent.push(Name::new(folder))?;
        }
    }
    Ok(absent)
}

// Whether nothing stands in a folder but what has this name.
fn holds_only<F: FileSystem>(files: &F, alloc: Global, folder: &str, name: &str) -> bool {
    match files.entries(alloc, folder) {
        Ok(names) => names.iter().all(|it| it.as_str() == name),
        Err(_) => false,
    }
}

/// Whether nothing is left of a creation but its mark in `db`.
pub fn holds_only_mark<F: FileSystem>(files: &F, alloc: Global, path: &str) -> bool {
    match within(alloc, path, "db") {
        Ok(folder) => {
            holds_only(files, alloc, path, "db")
                && holds_only(files, alloc, folder.as_str(), MARK_IN_DB)
        }
        Err(_) => false,
    }
}

/// Refuses a repository whose revisions stand on another disk than what a commit writes first: it could not be given its name there
/// by one change of names.
pub fn refuse_other_disks<F: FileSystem>(
    files: &F,
    alloc: Global,
    path: &str,
) -> Result<(), CallError> {
    let written = files.id(within(alloc, path, "db/txn-protorevs")?.as_str());
    let kept = files.id(within(alloc, path, "db/revs")?.as_str());
    match (written, kept) {
        (Ok(written), Ok(kept)) if written.device != kept.device => Err(CallError::OtherKind),
        _ => Ok(()),
    }
}
