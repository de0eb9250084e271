// The names next below a folder.
ghost use Rattle.std.specs.Prelude.{◌≡◌, ◌≢◌, ◌⊎◌, ◌<◌, ◌^◌, [], ◌∷◌, ◌++◌, false, IfOk, OnOk, MatchBool, MatchOption};
ghost use Rattle.fsfs_folders.specs.System.Paths.{has_path, has_slash};
ghost use Rattle.fsfs_folders.specs.System.CallRecord.{file_count, names_after};
ghost use Rattle.fsfs_folders.specs.System.Listing.{IsListOf};
ghost use Rattle.fsfs_memcalls.specs.Told.{beginning_of, calls_of};
ghost use Rattle.fsfs_memcalls.specs.Standing.{stands_as};
ghost use Rattle.fsfs_memcalls.specs.Entries.{IsElsewhere, IsPartBelow, IsNoEntry, IsEntryAt, Lists};
ghost use Rattle.fsfs_base.specs.Files.{same_text};

use crate::made::{MemBeginning, MemCall};
use crate::paths::paths;
use crate::standing::{file_at, has_folder, text_of};
use fsfs_base::Name;
use fsfs_folders::Path;
use std::alloc::{AllocError, Global};

/// What is listed.
#[derive(Clone, Copy, PartialEq, Eq)]
pub enum Kind {
    Folder,
    File,
}

// The longest name in a listing.
const LONGEST_NAME: usize = 128;

// Whether something of this kind stands at a path.
fn stands(first: &MemBeginning, calls: &[MemCall], kind: Kind, path: &Path) -> bool
    requires { file_count (beginning_of first.now) (calls_of calls.now) < 2 ^ 64 }
    ensures { result ≡ stands_as kind (names_after (beginning_of first.now) (calls_of calls.now)) path.now }
{
    match kind {
        Kind::Folder => has_folder(first, calls, text_of(path)),
        Kind::File => file_at(first, calls, text_of(path)).is_some(),
    }
}

// What stands before a text's last slash, and what behind it; `None` where it has none.
fn split(text: &str) -> Option<(&str, &str)>
    ensures { MatchOption result (has_slash text.now ≡ false) (λ parts. (text.now ≡ parts.0.now ++ 47 ∷ parts.1.now) × (has_slash parts.1.now ≡ false)) }
{
    match text.rsplit_once('/') {
        Some((front, last)) => Some((front, last)),
        None => None,
    }
}

fn is_none(text: &str) -> bool
    ensures { MatchBool result (text.now ≡ []) (text.now ≢ []) }
{
    if text.is_empty() {
        return true;
    }
    false
}

// Whether a text is a folder's, and not empty.
fn is_inner(text: &str, folder: &str) -> bool
    ensures { MatchBool result ((text.now ≡ folder.now) × (text.now ≢ [])) ((text.now ≡ []) ⊎ (text.now ≢ folder.now)) }
{
    if text.is_empty() {
        return false;
    }
    text == folder
}

// What a text has behind a folder's and a slash, if that is nothing further below.
fn part_below<'a>(text: &'a str, folder: &str) -> Option<&'a str>
    ensures { MatchOption result (IsElsewhere folder.now text.now) (λ name. IsPartBelow folder.now text.now name.now) }
{
    match split(text) {
        Some((front, last)) => {
            if !is_inner(front, folder) {
                return None;
            }
            Some(last)
        }
        None => {
            if !is_none(folder) {
                return None;
            }
            Some(text)
        }
    }
}

// The name that a path has next below a folder, if it is one there.
fn entry_in(path: &Path, folder: &Path) -> Option<Name>
    ensures { MatchOption result (IsNoEntry folder.now path.now) (IsEntryAt folder.now path.now) }
{
    let name = part_below(path.as_str(), folder.as_str())?;
    if name.is_empty() || LONGEST_NAME < name.len() {
        return None;
    }
    Some(Name::new(name))
}

fn is_same(name: &Name, other: &Name) -> bool
    ensures { result ≡ same_text name.now other.now }
{
    name.is(other)
}

fn has_name(found: &[Name], name: &Name) -> bool
    ensures { result ≡ has_path found.now name.now }
{
    match found {
        [] => false,
        [other, rest @ ..] => is_same(name, other) || has_name(rest, name),
    }
}

// A listing goes on with one path more.
fn list_path(
    found: &mut Vec<Name>,
    first: &MemBeginning,
    calls: &[MemCall],
    folder: &Path,
    kind: Kind,
    path: &Path,
) -> Result<(), AllocError>
    requires { file_count (beginning_of first.now) (calls_of calls.now) < 2 ^ 64 }
    ensures { OnOk result (Lists (stands_as kind (names_after (beginning_of first.now) (calls_of calls.now))) folder.now path.now found.old.items found.new.items) }
{
    let Some(name) = entry_in(path, folder) else {
        return Ok(());
    };
    if !stands(first, calls, kind, path) {
        return Ok(());
    }
    if has_name(found.as_slice(), &name) {
        return Ok(());
    }
    found.push(name)?;
    Ok(())
}

/// The names next below a folder that are of this kind.
pub fn names_in(
    alloc: Global,
    first: &MemBeginning,
    calls: &[MemCall],
    folder: &Path,
    kind: Kind,
) -> Result<Vec<Name>, AllocError>
    requires { file_count (beginning_of first.now) (calls_of calls.now) < 2 ^ 64 }
    ensures { IfOk result (λ found. IsListOf (stands_as kind (names_after (beginning_of first.now) (calls_of calls.now))) folder.now found.items) }
{
    let paths = paths(alloc, first, calls)?;
    let mut found = Vec::new(alloc);
    for path in &paths {
        list_path(&mut found, first, calls, folder, kind, path)?;
    }
    Ok(found)
}
