// What a crash leaves of the calls that were made.
ghost use Rattle.std.specs.Prelude.{◌≡◌, ◌<◌, ◌^◌, ◌++◌, ℕ, map, drop, cond, unwrap_or, Some, None, IfOk, OnOk, MatchOption};
ghost use Rattle.fsfs_folders.specs.System.Paths.{has_path};
ghost use Rattle.fsfs_folders.specs.System.CallRecord.{Standing, file_count, renamed_by, names_after, contents_after, is_reachable};
ghost use Rattle.fsfs_folders.specs.System.Remains.{are_synced, folders_of};
ghost use Rattle.fsfs_memcalls.specs.Told.{file_of, beginning_of, call_of, calls_of, change_of};
ghost use Rattle.fsfs_memcalls.specs.Recorded.{of_beginning, record_at};
ghost use Rattle.fsfs_memcalls.specs.Left.{first_pick, is_kept as is_kept_call, synced_with, kept_by, left_names, left_bytes, bytes_of, picked_names, picked_bytes, is_found as is_found_folder, bytes_found, IsFound, paths_such, files_such};

use crate::made::{MemBeginning, MemCall, MemChange, MemFile};
use crate::paths::paths;
use crate::standing::{contents, count, file_at, has_folder, is_at, text_of};
use fsfs_folders::Path;
use std::alloc::{AllocError, Global};

// The first of the picks, and those behind it.
fn next_pick(pick: &[bool]) -> (bool, &[bool])
    ensures first { result.0 ≡ first_pick pick.now }
    ensures rest { result.1.now ≡ drop 1 pick.now }
{
    match pick {
        [] => (false, pick),
        [first, rest @ ..] => (*first, rest),
    }
}

fn is_synced(synced: &[Path], folder: &Path) -> bool
    ensures { result ≡ has_path synced.now folder.now }
{
    match synced {
        [] => false,
        [path, rest @ ..] => {
            if is_at(path, text_of(folder)) {
                return true;
            }
            is_synced(rest, folder)
        }
    }
}

// Whether each folder whose names a change touches was synced.
fn is_firm(synced: &[Path], change: &MemChange) -> bool
    ensures { result ≡ are_synced synced.now (folders_of (change_of change.now)) }
{
    match change {
        MemChange::MakeFolder(path) => is_synced(synced, &path.folder()),
        MemChange::DropFolder(path) => is_synced(synced, &path.folder()),
        MemChange::Create(path) => is_synced(synced, &path.folder()),
        MemChange::Take(path, _) => is_synced(synced, &path.folder()),
        MemChange::Rename(from, to) => {
            is_synced(synced, &from.folder()) && is_synced(synced, &to.folder())
        }
        MemChange::Remove(path) => is_synced(synced, &path.folder()),
    }
}

// Whether a call's change is left: where it is picked, or firm.
fn is_kept(synced: &[Path], call: &MemCall, picked: bool) -> bool
    ensures { result ≡ is_kept_call synced.now (call_of call.now) picked }
{
    match call {
        MemCall::Named(change) => picked || is_firm(synced, change),
        MemCall::Append(_, _) => true,
        MemCall::SyncFile(_) => true,
        MemCall::FailSync(_) => true,
        MemCall::SyncFolder(_) => true,
        MemCall::Firmed => true,
    }
}

// Notes the folder that a call synced.
fn note_sync(synced: &mut Vec<Path>, call: &MemCall) -> Result<(), AllocError>
    ensures { OnOk result (synced.new.items ≡ synced_with (call_of call.now) synced.old.items) }
{
    match call {
        MemCall::SyncFolder(folder) => {
            synced.insert(0, folder.copy())?;
            Ok(())
        }
        MemCall::Named(_) => Ok(()),
        MemCall::Append(_, _) => Ok(()),
        MemCall::SyncFile(_) => Ok(()),
        MemCall::FailSync(_) => Ok(()),
        MemCall::Firmed => Ok(()),
    }
}

// Whether the change of each call is left, the newest first.
fn keep(
    kept: &mut Vec<bool>,
    synced: &mut Vec<Path>,
    calls: &[MemCall],
    pick: &[bool],
) -> Result<(), AllocError>
    ensures { OnOk result (kept.new.items ≡ kept.old.items ++ kept_by synced.old.items (calls_of calls.now) pick.now) }
{
    match calls {
        [] => Ok(()),
        [call, before @ ..] => {
            let (picked, rest) = next_pick(pick);
            kept.push(is_kept(synced.as_slice(), call, picked))?;
            note_sync(synced, call)?;
            keep(kept, synced, before, rest)
        }
    }
}

// Whether a change that is left makes or drops the folder with this text; `None` where it does neither.
fn folder_by(change: &MemChange, text: &[u8]) -> Option<bool>
    ensures { (number : ℕ) (now was : Standing) → (renamed_by (change_of change.now) number now was).folders text.now ≡ unwrap_or result (was.folders text.now) }
{
    match change {
        MemChange::MakeFolder(path) => {
            if is_at(path, text) {
                return Some(true);
            }
            None
        }
        MemChange::DropFolder(path) => {
            if is_at(path, text) {
                return Some(false);
            }
            None
        }
        MemChange::Create(_) => None,
        MemChange::Take(_, _) => None,
        MemChange::Rename(_, _) => None,
        MemChange::Remove(_) => None,
    }
}

// What a change that is left gives the path with this text: a file, or none; `None` where it says nothing of it.
fn file_by(
    first: &MemBeginning,
    before: &[MemCall],
    change: &MemChange,
    text: &[u8],
) -> Option<Option<usize>>
    requires { file_count (beginning_of first.now) (calls_of before.now) < 2 ^ 64 }
    ensures { (was : Standing) → (renamed_by (change_of change.now) (file_count (beginning_of first.now) (calls_of before.now)) (names_after (beginning_of first.now) (calls_of before.now)) was).files text.now ≡ unwrap_or result (was.files text.now) }
{
    match change {
        MemChange::Create(path) => {
            if is_at(path, text) {
                return Some(Some(count(first, before)));
            }
            None
        }
        MemChange::Take(path, _) => {
            if is_at(path, text) {
                return Some(Some(count(first, before)));
            }
            None
        }
        MemChange::Rename(from, to) => {
            if is_at(to, text) {
                return Some(file_at(first, before, text_of(from)));
            }
            if is_at(from, text) {
                return Some(None);
            }
            None
        }
        MemChange::Remove(path) => {
            if is_at(path, text) {
                return Some(None);
            }
            None
        }
        MemChange::MakeFolder(_) => None,
        MemChange::DropFolder(_) => None,
    }
}

// Whether the path with this text is a folder, of the names that are left.
fn has_left_folder(first: &MemBeginning, calls: &[MemCall], kept: &[bool], text: &[u8]) -> bool
    ensures { result ≡ (left_names (beginning_of first.now) (calls_of calls.now) kept.now).folders text.now }
{
    match calls {
        [] => has_folder(first, &[], text),
        [call, before @ ..] => {
            let (is_left, rest) = next_pick(kept);
            let was = has_left_folder(first, before, rest, text);
            match call {
                MemCall::Named(change) => {
                    if !is_left {
                        return was;
                    }
                    folder_by(change, text).unwrap_or(was)
                }
                MemCall::Append(_, _) => was,
                MemCall::SyncFile(_) => was,
                MemCall::FailSync(_) => was,
                MemCall::SyncFolder(_) => was,
                MemCall::Firmed => was,
            }
        }
    }
}

// The number of the file that the path with this text has, of the names that are left.
fn left_file(first: &MemBeginning, calls: &[MemCall], kept: &[bool], text: &[u8]) -> Option<usize>
    requires { file_count (beginning_of first.now) (calls_of calls.now) < 2 ^ 64 }
    ensures { result ≡ (left_names (beginning_of first.now) (calls_of calls.now) kept.now).files text.now }
{
    match calls {
        [] => file_at(first, &[], text),
        [call, before @ ..] => {
            let (is_left, rest) = next_pick(kept);
            let was = left_file(first, before, rest, text);
            match call {
                MemCall::Named(change) => {
                    if !is_left {
                        return was;
                    }
                    file_by(first, before, change, text).unwrap_or(was)
                }
                MemCall::Append(_, _) => was,
                MemCall::SyncFile(_) => was,
                MemCall::FailSync(_) => was,
                MemCall::SyncFolder(_) => was,
                MemCall::Firmed => was,
            }
        }
    }
}

// Whether each folder above the path with this text is left.
fn is_left_reached(first: &MemBeginning, calls: &[MemCall], kept: &[bool], text: &[u8]) -> bool
    ensures { result ≡ is_reachable (left_names (beginning_of first.now) (calls_of calls.now) kept.now).folders text.now }
{
    if !has_left_folder(first, calls, kept, &[]) {
        return false;
    }
    for (i, letter) in text.iter().enumerate() {
        if *letter == b'/' && !has_left_folder(first, calls, kept, &text[..i]) {
            return false;
        }
    }
    true
}

// Whether a folder is found after the crash.
fn is_found(first: &MemBeginning, calls: &[MemCall], kept: &[bool], text: &[u8]) -> bool
    ensures { result ≡ is_found_folder (left_names (beginning_of first.now) (calls_of calls.now) kept.now) text.now }
{
    if !is_left_reached(first, calls, kept, text) {
        return false;
    }
    has_left_folder(first, calls, kept, text)
}

// The number of the file that is found at a path after the crash.
fn found_file(first: &MemBeginning, calls: &[MemCall], kept: &[bool], text: &[u8]) -> Option<usize>
    requires { file_count (beginning_of first.now) (calls_of calls.now) < 2 ^ 64 }
    ensures { result ≡ cond (is_reachable (left_names (beginning_of first.now) (calls_of calls.now) kept.now).folders text.now) ((left_names (beginning_of first.now) (calls_of calls.now) kept.now).files text.now) None }
{
    if !is_left_reached(first, calls, kept, text) {
        return None;
    }
    left_file(first, calls, kept, text)
}

// The bytes of a file that are left: all, or the firm ones.
fn bytes_left(
    alloc: Global,
    first: &MemBeginning,
    calls: &[MemCall],
    number: usize,
    all_bytes: bool,
) -> Result<Vec<u8>, AllocError>
    requires { file_count (beginning_of first.now) (calls_of calls.now) < 2 ^ 64 }
    ensures { IfOk result (λ bytes. bytes.items ≡ left_bytes all_bytes (contents_after (beginning_of first.now) (calls_of calls.now) number)) }
{
    Ok(contents(alloc, first, calls, number)?.left(all_bytes))
}

// The folders among these paths that are found after the crash.
fn found_folders(
    alloc: Global,
    first: &MemBeginning,
    calls: &[MemCall],
    kept: &[bool],
    paths: &[Path],
) -> Result<Vec<Path>, AllocError>
    ensures { IfOk result (λ found. found.items ≡ paths_such (is_found_folder (left_names (beginning_of first.now) (calls_of calls.now) kept.now)) paths.now) }
{
    match paths {
        [] => Ok(Vec::new(alloc)),
        [path, rest @ ..] => {
            let mut found = found_folders(alloc, first, calls, kept, rest)?;
            if is_found(first, calls, kept, text_of(path)) {
                found.insert(0, path.copy())?;
            }
            Ok(found)
        }
    }
}

// The file that is found at a path after the crash.
fn file_found(
    alloc: Global,
    first: &MemBeginning,
    calls: &[MemCall],
    kept: &[bool],
    all_bytes: bool,
    path: &Path,
) -> Result<Option<MemFile>, AllocError>
    requires { file_count (beginning_of first.now) (calls_of calls.now) < 2 ^ 64 }
    ensures none { IfOk result (λ found. MatchOption found (bytes_found (left_names (beginning_of first.now) (calls_of calls.now) kept.now) (bytes_of all_bytes (beginning_of first.now) (calls_of calls.now)) path.now ≡ None) (λ file. (file.path ≡ path.now) × (bytes_found (left_names (beginning_of first.now) (calls_of calls.now) kept.now) (bytes_of all_bytes (beginning_of first.now) (calls_of calls.now)) path.now ≡ Some file.bytes.items))) }
{
    match found_file(first, calls, kept, text_of(path)) {
        Some(number) => {
            let bytes = bytes_left(alloc, first, calls, number, all_bytes)?;
            Ok(Some(MemFile {
                path: path.copy(),
                bytes,
            }))
        }
        None => Ok(None),
    }
}

// The files at these paths that are found after the crash.
fn found_files(
    alloc: Global,
    first: &MemBeginning,
    calls: &[MemCall],
    kept: &[bool],
    all_bytes: bool,
    paths: &[Path],
) -> Result<Vec<MemFile>, AllocError>
    requires { file_count (beginning_of first.now) (calls_of calls.now) < 2 ^ 64 }
    ensures { IfOk result (λ found. map file_of found.items ≡ files_such (bytes_found (left_names (beginning_of first.now) (calls_of calls.now) kept.now) (bytes_of all_bytes (beginning_of first.now) (calls_of calls.now))) paths.now) }
{
    match paths {
        [] => Ok(Vec::new(alloc)),
        [path, rest @ ..] => {
            let mut found = found_files(alloc, first, calls, kept, all_bytes, rest)?;
            match file_found(alloc, first, calls, kept, all_bytes, path)? {
                Some(file) => {
                    found.insert(0, file)?;
                    Ok(found)
                }
                None => Ok(found),
            }
        }
    }
}

/// What is found after a crash: of each call its change of names is left where it is picked or firm; of each file all bytes, or
/// the firm ones.
pub fn left_of(
    alloc: Global,
    first: &MemBeginning,
    calls: &[MemCall],
    pick: &[bool],
    all_bytes: bool,
) -> Result<MemBeginning, AllocError>
    requires { file_count (beginning_of first.now) (calls_of calls.now) < 2 ^ 64 }
    ensures { IfOk result (λ found. IsFound (picked_names pick.now (record_at (beginning_of first.now) (calls_of calls.now))) (picked_bytes all_bytes (record_at (beginning_of first.now) (calls_of calls.now))) (of_beginning (beginning_of found))) }
{
    let mut kept = Vec::new(alloc);
    let mut synced = Vec::new(alloc);
    keep(&mut kept, &mut synced, calls, pick)?;
    let kept = kept.as_slice();
    let paths = paths(alloc, first, calls)?;
    let paths = paths.as_slice();
    Ok(MemBeginning {
        folders: found_folders(alloc, first, calls, kept, paths)?,
        files: found_files(alloc, first, calls, kept, all_bytes, paths)?,
    })
}
