//! Paths and their texts: `/`, or each name with a `/` before it.
ghost use Rattle.std.specs.Prelude.{◌≡◌, ◌≢◌, ◌∷◌, ℕ, List, ◌==◌, ◌+◌, ◌<◌, ◌≤◌, ◌^◌, ◌++◌, length, map, [], IsTrue, ◌↔◌, OnOk, IfOk, IfErr, MatchOption, MatchResult};
ghost use Rattle.std.specs.List.{position, slice_split, list_any};
ghost use Rattle.std.specs.String.{string_bytes};
ghost use Rattle.fsfs_base.specs.declared.paths.bad_path.PathError.TheVariants.{OutOfMemory};
ghost use Rattle.fsfs_base.specs.declared.paths.bad_path.PathFault.TheVariants.{PathTooLong};
ghost use Rattle.fsfs_base.specs.Paths.{Path, names_text, path_text};
ghost use Rattle.fsfs_base.specs.PathTexts.{is_control, is_dots, IsName, IsPath, IsBadPath, IsJoined, IsBadJoin, IsRefusal};
ghost use Rattle.fsfs_base.specs.PathReading.{name_fault_at, names_fault_at};

use crate::paths::bad_path::{BadPath, PathError, PathFault};
use crate::paths::path::FsPath;
use std::alloc::{AllocError, Global};
use std::fmt;
use std::fmt::Display;

const MAX_PATH: usize = 4096;

const MAX_NAMES: usize = 128;

const MAX_NAME: usize = 255;

fn is_control(byte: u8) -> bool
    ensures { result ≡ is_control byte }
{
    byte < 32 || byte == 127
}

fn control_at(name: &str) -> Option<usize>
    ensures { result ≡ position is_control name.now }
{
    name.as_bytes().iter().position(|byte| is_control(*byte))
}

fn is_dots(name: &str) -> bool
    ensures { result ≡ is_dots name.now }
{
    name == "." || name == ".."
}

/// What is wrong with a name that has `above` names above it and begins at the byte `at`.
fn name_fault(above: usize, at: usize, name: &str) -> Option<BadPath>
    requires { at + length name.now < 2 ^ 64 }
    ensures { result ≡ name_fault_at above at name.now }
{
    let bad = |at, why| Some(BadPath { at, why });
    if above >= MAX_NAMES {
        return bad(at, PathFault::TooDeep);
    }
    if name.is_empty() {
        return bad(at, PathFault::EmptyName);
    }
    if let Some(offset) = control_at(name) {
        return bad(at + offset, PathFault::Control);
    }
    if name.len() > MAX_NAME {
        return bad(at, PathFault::NameTooLong);
    }
    if is_dots(name) {
        return bad(at, PathFault::Dot);
    }
    None
}

fn has_slash(name: &str) -> bool
    ensures { result ≡ list_any (λ b. b == 47) name.now }
{
    name.as_bytes().iter().any(|byte| *byte == b'/')
}

/// Whether a path may have this name: not empty, at most 255 bytes, without `/` and control characters, and
/// neither `.` nor `..`.
pub fn is_name(name: &str) -> bool
    ensures { IsTrue result ↔ IsName name.now }
{
    match name_fault(0, 0, name) {
        None => !has_slash(name),
        Some(_) => false,
    }
}

/// What is wrong with the first of the names that is refused.
#[tactic(auto, unfolding(crate::specs::PathReading::names_fault_at))]
fn names_fault(above: usize, at: usize, names: &[&str]) -> Option<BadPath>
    requires { at + length (names_text (map (λ name. name.now) names.now)) < 2 ^ 64 }
    ensures { result ≡ names_fault_at above at (map (λ name. name.now) names.now) }
{
    match names {
        [] => None,
        [name, names @ ..] => match name_fault(above, at, name) {
            Some(bad) => Some(bad),
            None => names_fault(above + 1, at + name.len() + 1, names),
        },
    }
}

/// What is left of the room behind each name with a `/` before it.
fn room_behind(room: usize, names: &[String]) -> Option<usize>
    ensures { MatchOption result (room < length (names_text (map string_bytes names.now))) (λ left. left + length (names_text (map string_bytes names.now)) ≡ room) }
{
    match names {
        [] => Some(room),
        [name, names @ ..] => room_behind(room.checked_sub(1)?.checked_sub(name.len())?, names),
    }
}

fn behind_slash(text: &str) -> Option<&str>
    ensures { MatchOption result ((rest : List ℕ) → text.now ≢ 47 ∷ rest) (λ rest. text.now ≡ 47 ∷ rest.now) }
{
    text.strip_prefix('/')
}

/// The names between the slashes of a text.
fn names_of<'a>(alloc: Global, text: &'a str) -> Result<Vec<&'a str>, AllocError>
    ensures { IfOk result (λ names. map (λ name. name.now) names.items ≡ slice_split (λ b. b == 47) text.now) }
{
    text.split('/').collect(alloc)
}

impl Display for FsPath {
    ghost use Rattle.std.specs.Prelude.{Some};
    ghost use Rattle.fsfs_base.specs.Paths.{path_text};

    ghost output = { λ path. Some (path_text path) };

    fn fmt<W: fmt::Write>(&self, f: &mut fmt::Formatter<W>) -> fmt::Result {
        if self.is_root() {
            return write!(f, "/");
        }
        for name in &self.names {
            write!(f, "/{name}")?;
        }
        Ok(())
    }
}

impl FsPath {
    /// The path with this text: `/`, or each name with a `/` before it, within 4,096 bytes and 128 names.
    ///
    /// The first rule that is broken is named: a text begins with `/` and is short enough; then name by name
    /// the names are few enough, not empty, without control characters, short enough, and neither `.` nor `..`.
    /// Its place is 0, 4,096, the byte where the name begins, or the control character.
    pub fn parse(alloc: Global, text: &str) -> Result<FsPath, PathError>
        ensures path { IfOk result IsPath }
        ensures text { IfOk result (λ p. path_text p ≡ text.now) }
        ensures only { (p : Path) → IsPath p → path_text p ≡ text.now → MatchResult result (λ q. q ≡ p) (λ e. e ≡ OutOfMemory) }
        ensures refused { IfErr result (IsRefusal (IsBadPath text.now)) }
    {
        match behind_slash(text) {
            Some("") => Ok(FsPath::root(alloc)),
            Some(names) => FsPath::root(alloc).join(alloc, names),
            None => Err(PathError::Bad(BadPath {
                at: 0,
                why: PathFault::NotAbsolute,
            })),
        }
    }

    /// The path behind this one whose further names are those of the text, `/` between them.
    ///
    /// It is refused as a path's text is; this path's own names are not looked at again.
    pub fn join(&self, alloc: Global, text: &str) -> Result<FsPath, PathError>
        ensures joined { IfOk result (IsJoined self.now text.now) }
        ensures only { (p : Path) → IsJoined self.now text.now p → MatchResult result (λ q. q ≡ p) (λ e. e ≡ OutOfMemory) }
        ensures refused { IfErr result (IsRefusal (IsBadJoin self.now text.now)) }
    {
        let start = self.start_of_next(text)?;
        let names = names_of(alloc, text)?;
        match names_fault(self.depth(), start, &names) {
            Some(bad) => Err(PathError::Bad(bad)),
            None => Ok(self.with_names(alloc, &names)?),
        }
    }

    /// Writes the path's text at the end.
    pub fn put_text(&self, out: &mut Vec<u8>) -> Result<(), AllocError>
        ensures { OnOk result (out.new.items ≡ out.old.items ++ path_text self.now) }
    {
        if self.is_root() {
            out.push(b'/')?;
            return Ok(());
        }
        for name in &self.names {
            out.push(b'/')?;
            out.extend_from_slice(name.as_bytes())?;
        }
        Ok(())
    }

    /// The path's text.
    pub fn text(&self, alloc: Global) -> Result<String, AllocError>
        ensures { IfOk result (λ text. string_bytes text ≡ path_text self.now) }
    {
        self.to_string(alloc)
    }

    /// The directory that the path stands in; none for `/`.
    pub fn parent(&self, alloc: Global) -> Result<Option<FsPath>, AllocError>
        ensures { IfOk result (λ parent. MatchOption parent (self.now ≡ []) (λ p. (name : List ℕ) × (self.now ≡ p ++ name ∷ []))) }
    {
        match self.depth().checked_sub(1) {
            None => Ok(None),
            Some(above) => Ok(Some(self.prefix(alloc, above)?)),
        }
    }

    /// Its names, from the root down.
    pub fn names(&self) -> &[String]
        ensures { map string_bytes result.now ≡ self.now }
    {
        self.names.as_slice()
    }

    /// The byte at which a further name begins, where the text fits behind this path.
    fn start_of_next(&self, text: &str) -> Result<usize, BadPath>
        ensures { MatchResult result
            (λ start. (start ≡ length (names_text self.now) + 1) × (start + length text.now ≤ 4096))
            (λ bad. (bad.at ≡ 4096) × (bad.why ≡ PathTooLong) × (4096 < length (names_text self.now) + 1 + length text.now)) }
    {
        match room_behind(MAX_PATH, &self.names) {
            Some(room) if text.len() < room => Ok(MAX_PATH - room + 1),
            _ => Err(BadPath {
                at: MAX_PATH,
                why: PathFault::PathTooLong,
            }),
        }
    }

    fn with_names(&self, alloc: Global, names: &[&str]) -> Result<FsPath, AllocError>
        ensures { IfOk result (λ p. p ≡ self.now ++ map (λ name. name.now) names.now) }
    {
        let mut all = self.names.clone()?;
        for name in names {
            all.push(String::from_str(alloc, name)?)?;
        }
        Ok(FsPath { names: all })
    }
}
