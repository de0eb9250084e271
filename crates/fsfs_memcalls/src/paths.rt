// The paths at which something may stand.
ghost use Rattle.std.specs.Prelude.{◌≡◌, ◌++◌, map, OnOk, IfOk, MatchOption, Some, None};
ghost use Rattle.fsfs_memcalls.specs.Told.{file_of, beginning_of, call_of, calls_of};
ghost use Rattle.fsfs_memcalls.specs.Places.{place_of, places_in, paths_of};
ghost use Rattle.fsfs_folders.specs.System.Named.{file_paths};

use crate::made::{MemBeginning, MemCall, MemChange, MemFile};
use fsfs_folders::Path;
use std::alloc::{AllocError, Global};

// Where a call makes something stand.
fn place(call: &MemCall) -> Option<&Path>
    ensures { MatchOption result (place_of (call_of call.now) ≡ None) (λ path. place_of (call_of call.now) ≡ Some path.now) }
{
    match call {
        MemCall::Named(change) => match change {
            MemChange::MakeFolder(path) => Some(path),
            MemChange::DropFolder(_) => None,
            MemChange::Create(path) => Some(path),
            MemChange::Take(path, _) => Some(path),
            MemChange::Rename(_, to) => Some(to),
            MemChange::Remove(_) => None,
        },
        MemCall::Append(_, _) => None,
        MemCall::SyncFile(_) => None,
        MemCall::FailSync(_) => None,
        MemCall::SyncFolder(_) => None,
        MemCall::Firmed => None,
    }
}

fn add_folders(paths: &mut Vec<Path>, folders: &[Path]) -> Result<(), AllocError>
    ensures { OnOk result (paths.new.items ≡ paths.old.items ++ folders.now) }
{
    match folders {
        [] => Ok(()),
        [folder, rest @ ..] => {
            paths.push(folder.copy())?;
            add_folders(paths, rest)
        }
    }
}

fn add_files(paths: &mut Vec<Path>, files: &[MemFile]) -> Result<(), AllocError>
    ensures { OnOk result (paths.new.items ≡ paths.old.items ++ file_paths (map file_of files.now)) }
{
    match files {
        [] => Ok(()),
        [file, rest @ ..] => {
            paths.push(file.path.copy())?;
            add_files(paths, rest)
        }
    }
}

fn add_places(paths: &mut Vec<Path>, calls: &[MemCall]) -> Result<(), AllocError>
    ensures { OnOk result (paths.new.items ≡ paths.old.items ++ places_in (calls_of calls.now)) }
{
    match calls {
        [] => Ok(()),
        [call, rest @ ..] => {
            if let Some(path) = place(call) {
                paths.push(path.copy())?;
            }
            add_places(paths, rest)
        }
    }
}

/// The paths at which something may stand: those of the beginning, and each at which a call made something.
pub fn paths(
    alloc: Global,
    first: &MemBeginning,
    calls: &[MemCall],
) -> Result<Vec<Path>, AllocError>
    ensures { IfOk result (λ paths. paths.items ≡ paths_of (beginning_of first.now) (calls_of calls.now)) }
{
    let mut paths = Vec::new(alloc);
    add_folders(&mut paths, first.folders.as_slice())?;
    add_files(&mut paths, first.files.as_slice())?;
    add_places(&mut paths, calls)?;
    Ok(paths)
}
