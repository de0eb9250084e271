// What stands after the calls that were made, the newest first.
ghost use Rattle.std.specs.Prelude.{◌≡◌, ◌<◌, ◌^◌, ◌↔◌, [], map, IfOk, IsTrue};
ghost use Rattle.fsfs_folders.specs.System.Paths.{has_path};
ghost use Rattle.fsfs_folders.specs.System.CallRecord.{first_number, first_bytes, file_count, names_after, contents_after, is_reachable};
ghost use Rattle.fsfs_memcalls.specs.Told.{file_of, beginning_of, calls_of, contents_of};
ghost use Rattle.fsfs_base.specs.Files.{same_text};

use crate::made::{MemBeginning, MemCall, MemChange, MemContents, MemFile};
use fsfs_folders::Path;
use std::alloc::{AllocError, Global};

// Whether two texts are the same.
fn are_same(one: &[u8], two: &[u8]) -> bool
    ensures { IsTrue result ↔ (one.now ≡ two.now) }
{
    one == two
}

/// Whether a path has this text.
pub fn is_at(path: &Path, text: &[u8]) -> bool
    ensures { result ≡ same_text text.now path.now }
{
    are_same(path.as_str().as_bytes(), text)
}

/// The bytes of a path's text.
pub fn text_of(path: &Path) -> &[u8]
    ensures { result.now ≡ path.now }
{
    path.as_str().as_bytes()
}

/// Whether a text is that of one of these paths.
pub fn has_first_folder(folders: &[Path], text: &[u8]) -> bool
    ensures { result ≡ has_path folders.now text.now }
{
    match folders {
        [] => false,
        [folder, rest @ ..] => {
            if is_at(folder, text) {
                return true;
            }
            has_first_folder(rest, text)
        }
    }
}

fn first_file(files: &[MemFile], text: &[u8]) -> Option<usize>
    ensures { result ≡ first_number (map file_of files.now) text.now }
{
    match files {
        [] => None,
        [file, rest @ ..] => {
            if is_at(&file.path, text) {
                return Some(rest.len());
            }
            first_file(rest, text)
        }
    }
}

fn bytes_of_first(files: &[MemFile], number: usize) -> &[u8]
    ensures { result.now ≡ first_bytes (map file_of files.now) number }
{
    match files {
        [] => &[],
        [file, rest @ ..] => {
            if number == rest.len() {
                return file.bytes.as_slice();
            }
            bytes_of_first(rest, number)
        }
    }
}

/// How many files there were. A new one gets this number.
pub fn count(first: &MemBeginning, calls: &[MemCall]) -> usize
    requires { file_count (beginning_of first.now) (calls_of calls.now) < 2 ^ 64 }
    ensures { result ≡ file_count (beginning_of first.now) (calls_of calls.now) }
{
    match calls {
        [] => first.files.len(),
        [call, before @ ..] => match call {
            MemCall::Named(change) => match change {
                MemChange::Create(_) => count(first, before) + 1,
                MemChange::Take(_, _) => count(first, before) + 1,
                MemChange::MakeFolder(_) => count(first, before),
                MemChange::DropFolder(_) => count(first, before),
                MemChange::Rename(_, _) => count(first, before),
                MemChange::Remove(_) => count(first, before),
            },
            MemCall::Append(_, _) => count(first, before),
            MemCall::SyncFile(_) => count(first, before),
            MemCall::FailSync(_) => count(first, before),
            MemCall::SyncFolder(_) => count(first, before),
            MemCall::Firmed => count(first, before),
        },
    }
}

/// Whether the path with this text is a folder.
pub fn has_folder(first: &MemBeginning, calls: &[MemCall], text: &[u8]) -> bool
    ensures { result ≡ (names_after (beginning_of first.now) (calls_of calls.now)).folders text.now }
{
    match calls {
        [] => has_first_folder(first.folders.as_slice(), text),
        [call, before @ ..] => match call {
            MemCall::Named(change) => match change {
                MemChange::MakeFolder(made) => {
                    if is_at(made, text) {
                        return true;
                    }
                    has_folder(first, before, text)
                }
                MemChange::DropFolder(gone) => {
                    if is_at(gone, text) {
                        return false;
                    }
                    has_folder(first, before, text)
                }
                MemChange::Create(_) => has_folder(first, before, text),
                MemChange::Take(_, _) => has_folder(first, before, text),
                MemChange::Rename(_, _) => has_folder(first, before, text),
                MemChange::Remove(_) => has_folder(first, before, text),
            },
            MemCall::Append(_, _) => has_folder(first, before, text),
            MemCall::SyncFile(_) => has_folder(first, before, text),
            MemCall::FailSync(_) => has_folder(first, before, text),
            MemCall::SyncFolder(_) => has_folder(first, before, text),
            MemCall::Firmed => has_folder(first, before, text),
        },
    }
}

/// The number of the file that the path with this text has.
pub fn file_at(first: &MemBeginning, calls: &[MemCall], text: &[u8]) -> Option<usize>
    requires { file_count (beginning_of first.now) (calls_of calls.now) < 2 ^ 64 }
    ensures { result ≡ (names_after (beginning_of first.now) (calls_of calls.now)).files text.now }
{
    match calls {
        [] => first_file(first.files.as_slice(), text),
        [call, before @ ..] => match call {
            MemCall::Named(change) => match change {
                MemChange::Create(path) => {
                    if is_at(path, text) {
                        return Some(count(first, before));
                    }
                    file_at(first, before, text)
                }
                MemChange::Take(path, _) => {
                    if is_at(path, text) {
                        return Some(count(first, before));
                    }
                    file_at(first, before, text)
                }
                MemChange::Rename(from, to) => {
                    if is_at(to, text) {
                        return file_at(first, before, text_of(from));
                    }
                    if is_at(from, text) {
                        return None;
                    }
                    file_at(first, before, text)
                }
                MemChange::Remove(gone) => {
                    if is_at(gone, text) {
                        return None;
                    }
                    file_at(first, before, text)
                }
                MemChange::MakeFolder(_) => file_at(first, before, text),
                MemChange::DropFolder(_) => file_at(first, before, text),
            },
            MemCall::Append(_, _) => file_at(first, before, text),
            MemCall::SyncFile(_) => file_at(first, before, text),
            MemCall::FailSync(_) => file_at(first, before, text),
            MemCall::SyncFolder(_) => file_at(first, before, text),
            MemCall::Firmed => file_at(first, before, text),
        },
    }
}

fn first_contents(
    alloc: Global,
    first: &MemBeginning,
    number: usize,
) -> Result<MemContents, AllocError>
    ensures { IfOk result (λ file. contents_of file ≡ contents_after (beginning_of first.now) [] number) }
{
    let bytes = Vec::from_slice(alloc, bytes_of_first(first.files.as_slice(), number))?;
    let firm = bytes.len();
    Ok(MemContents {
        bytes,
        firm,
        is_lost: false,
    })
}

/// What the file with a number has.
pub fn contents(
    alloc: Global,
    first: &MemBeginning,
    calls: &[MemCall],
    number: usize,
) -> Result<MemContents, AllocError>
    requires { file_count (beginning_of first.now) (calls_of calls.now) < 2 ^ 64 }
    ensures { IfOk result (λ file. contents_of file ≡ contents_after (beginning_of first.now) (calls_of calls.now) number) }
{
    match calls {
        [] => first_contents(alloc, first, number),
        [call, before @ ..] => match call {
            MemCall::Named(change) => match change {
                MemChange::Create(_) => {
                    if number == count(first, before) {
                        return Ok(MemContents::none(alloc));
                    }
                    contents(alloc, first, before, number)
                }
                MemChange::Take(_, taken) => {
                    if number == count(first, before) {
                        return taken.copy(alloc);
                    }
                    contents(alloc, first, before, number)
                }
                MemChange::MakeFolder(_) => contents(alloc, first, before, number),
                MemChange::DropFolder(_) => contents(alloc, first, before, number),
                MemChange::Rename(_, _) => contents(alloc, first, before, number),
                MemChange::Remove(_) => contents(alloc, first, before, number),
            },
            MemCall::Append(to, bytes) => {
                let file = contents(alloc, first, before, number)?;
                if number == *to {
                    return file.longer(bytes.as_slice());
                }
                Ok(file)
            }
            MemCall::SyncFile(synced) => {
                let file = contents(alloc, first, before, number)?;
                if number == *synced {
                    return Ok(file.firmed());
                }
                Ok(file)
            }
            MemCall::FailSync(failed) => {
                let file = contents(alloc, first, before, number)?;
                if number == *failed {
                    return Ok(file.lost());
                }
                Ok(file)
            }
            MemCall::SyncFolder(_) => contents(alloc, first, before, number),
            MemCall::Firmed => contents(alloc, first, before, number),
        },
    }
}

/// Whether each folder above the path with this text is there.
pub fn is_reached(first: &MemBeginning, calls: &[MemCall], text: &[u8]) -> bool
    ensures { result ≡ is_reachable (names_after (beginning_of first.now) (calls_of calls.now)).folders text.now }
{
    if !has_folder(first, calls, &[]) {
        return false;
    }
    for (i, letter) in text.iter().enumerate() {
        if *letter == b'/' && !has_folder(first, calls, &text[..i]) {
            return false;
        }
    }
    true
}
