// The calls of the system, made in memory.
ghost use Rattle.std.specs.Prelude.{◌≡◌, ◌⊎◌, ◌≤◌, ◌<◌, ◌-◌, ◌^◌, [], ◌∷◌, ◌++◌, ℕ, List, true, false, min, length, take, drop, OnOk, OnErr, IfOk, IsErrOf};
ghost use Rattle.fsfs_folders.specs.System.Paths.{has_path};
ghost use Rattle.fsfs_folders.specs.System.CallRecord.{file_count, add_call, new_number, names_now, contents_now, is_reachable, IsEmptyAt};
ghost use Rattle.fsfs_folders.specs.System.Listing.{IsListOf};
ghost use Rattle.fsfs_folders.specs.System.Remains.{IsLeft};
ghost use Rattle.fsfs_memcalls.specs.Told.{beginning_of, calls_of, call_of, contents_of};
ghost use Rattle.fsfs_memcalls.specs.Standing.{stands_as};

use crate::crash::left_of;
use crate::emptiness::is_empty_at;
use crate::listing::{Kind, names_in};
use crate::made::{MemBeginning, MemCall, MemChange, MemContents};
use crate::paths::paths;
use crate::standing::{
    contents, count, file_at, has_first_folder, has_folder, is_reached, text_of,
};
use crate::telling::tell;
use fsfs_base::{Faults, Name};
use fsfs_folders::{CallError, Calls, Mode, OpenFile, Path};
use std::alloc::{AllocError, Global};
use std::mem::replace;

/// A file that is open, by its number.
#[derive(Drop)]
pub struct MemOpenFile {
    number: usize,
}

impl OpenFile for MemOpenFile {
    ghost number = { λ file. file.number };
}

// So many bytes at most are read or written by one call.
const AT_ONCE: usize = 1000;

/// The calls of the system on a folder in memory, in which nothing stands at the beginning. It keeps them all, so that it can tell
/// what they did; what stands is found by going through them, which is slow and meant for tests.
#[derive(Drop)]
pub struct MemCalls {
    alloc: Global,
    first: MemBeginning,
    // Where links stand. They lead to what these calls know nothing of.
    links: Vec<Path>,
    // The calls that did something, the newest first.
    made: Vec<MemCall>,
    faults: Faults,
    // A call that is to fail is made all the same, as far as it can be.
    makes_failing: bool,
    // The numbers of the calls of the next part that are to fail.
    failing_in_part: Vec<u64>,
    ghost small: { file_count (beginning_of first) (calls_of made.items) < 2 ^ 64 },
}

impl MemCalls {
    ghost use Rattle.fsfs_memcalls.specs.Recorded.{record_of, without_last, of_beginning, of_folders};
    ghost use Rattle.fsfs_memcalls.specs.Left.{picked_names, picked_bytes, IsFound};

    // What stands there at the beginning, and no call so far.
    fn over(alloc: Global, first: MemBeginning) -> MemCalls
        ensures { record_of result ≡ of_beginning (beginning_of first) }
    {
        MemCalls {
            alloc,
            first,
            links: Vec::new(alloc),
            made: Vec::new(alloc),
            faults: Faults::new(Vec::new(alloc)),
            makes_failing: false,
            failing_in_part: Vec::new(alloc),
        }
    }

    /// A folder in which these folders stand at the beginning, and no file. The empty path is the folder itself, so it is to be one
    /// of them.
    pub fn with_folders(alloc: Global, folders: Vec<Path>) -> MemCalls
        ensures { record_of result ≡ of_folders folders.items }
    {
        MemCalls::over(
            alloc,
            MemBeginning {
                folders,
                files: Vec::new(alloc),
            },
        )
    }

    /// A folder with nothing in it.
    pub fn new(alloc: Global) -> Result<MemCalls, AllocError>
        ensures { IfOk result (λ calls. record_of calls ≡ of_folders ([] ∷ [])) }
    {
        let mut folders = Vec::new(alloc);
        folders.push(Path::new(""))?;
        Ok(MemCalls::with_folders(alloc, folders))
    }

    /// The same with links at these paths, at which nothing else stands.
    pub fn with_links(mut self, links: Vec<Path>) -> MemCalls
        ensures { record_of result ≡ record_of self }
    {
        self.links = links;
        self
    }

    /// The same, of whose calls from now on these fail; the first is 1. Calls that the system refuses, as the removal of a file that
    /// isn't there, are not counted. Where `are_made` is set, a failing call is made all the same.
    pub fn failing(mut self, calls: Vec<u64>, are_made: bool) -> MemCalls
        ensures { record_of result ≡ record_of self }
    {
        self.faults = Faults::new(calls);
        self.makes_failing = are_made;
        self
    }

    /// The same, of whose next part these calls fail.
    pub fn failing_in_part(mut self, calls: Vec<u64>) -> MemCalls
        ensures { record_of result ≡ record_of self }
    {
        self.failing_in_part = calls;
        self
    }

    /// The same, of whose calls from now on so many may pass, and each after them fails.
    pub fn fuse(mut self, passing: u64) -> MemCalls
        ensures { record_of result ≡ record_of self }
    {
        self.faults.fuse(passing);
        self
    }

    /// How many calls there were that the system did not refuse.
    pub fn count_calls(&self) -> u64 {
        self.faults.calls()
    }

    /// The calls that did something, the oldest first, a line for each.
    pub fn told(&self, alloc: Global) -> Result<String, AllocError> {
        tell(alloc, self.made.as_slice())
    }

    /// What a crash leaves now: the calls on what is found then. A change of names is left where it is picked, or where its folders
    /// were synced since; the picks are for the calls that did something, the newest first, and behind them none is picked. Of each
    /// file all bytes are left, or the firm ones alone.
    pub fn crash(&self, pick: &[bool], all_bytes: bool) -> Result<MemCalls, AllocError>
        ensures found { IfOk result (λ calls. IsFound (picked_names pick.now (record_of self.now)) (picked_bytes all_bytes (record_of self.now)) (record_of calls)) }
        ensures left { IsLeft (record_of self.now) (picked_names pick.now (record_of self.now)) (picked_bytes all_bytes (record_of self.now)) }
    {
        let made = self.made.as_slice();
        let first = left_of(self.alloc, &self.first, made, pick, all_bytes)?;
        Ok(MemCalls::over(self.alloc, first))
    }

    // Keeps a call.
    fn add(&mut self, call: MemCall) -> Result<(), CallError>
        requires { file_count (beginning_of self.old.first) (call_of call ∷ calls_of self.old.made.items) < 2 ^ 64 }
        ensures ok { OnOk result (record_of self.new ≡ add_call (call_of call) (record_of self.old)) }
        ensures err { OnErr result (record_of self.new ≡ record_of self.old) }
        ensures links { self.new.links ≡ self.old.links }
    {
        match self.made.insert(0, call) {
            Ok(()) => Ok(()),
            Err(_) => Err(CallError::Memory),
        }
    }

    // Makes a call, unless it is to fail.
    fn make(&mut self, call: MemCall) -> Result<(), CallError>
        requires { file_count (beginning_of self.old.first) (call_of call ∷ calls_of self.old.made.items) < 2 ^ 64 }
        ensures ok { OnOk result (record_of self.new ≡ add_call (call_of call) (record_of self.old)) }
        ensures err { OnErr result ((record_of self.new ≡ record_of self.old) ⊎ (record_of self.new ≡ add_call (call_of call) (record_of self.old))) }
        ensures told { IsErrOf result CallError.NotFound → ⊥ }
        ensures links { self.new.links ≡ self.old.links }
    {
        let passes = self.faults.call().is_ok();
        if !passes && !self.makes_failing {
            return Err(CallError::Failed);
        }
        let Ok(()) = self.add(call) else {
            return Err(CallError::Memory);
        };
        if passes {
            Ok(())
        } else {
            Err(CallError::Failed)
        }
    }

    // A call that changes nothing: whether it passes.
    fn look(&mut self) -> bool
        ensures same { record_of self.new ≡ record_of self.old }
        ensures links { self.new.links ≡ self.old.links }
    {
        self.faults.call().is_ok()
    }

    fn is_link(&self, path: &Path) -> bool
        ensures { result ≡ has_path self.now.links.items path.now }
    {
        has_first_folder(self.links.as_slice(), text_of(path))
    }

    // A link has the path, and so no folder.
    fn no_folder(&self, path: &Path) -> Result<bool, CallError>
        ensures { IfOk result (λ is. (is ≡ false) × ((names_now (record_of self.now)).folders path.now ≡ false)) }
    {
        if self.folder(path) {
            return Err(CallError::OtherKind);
        }
        Ok(false)
    }

    // The links next below a folder, by their paths there.
    fn links_below(&self, folder: &Path) -> Result<Vec<Path>, AllocError> {
        let mut found = Vec::new(self.alloc);
        for link in &self.links {
            if let Some(rest) = link.as_str().strip_prefix(folder.as_str())
                && let Some(name) = rest.strip_prefix("/")
            {
                found.push(Path::new(name))?;
            }
        }
        Ok(found)
    }

    // No link has the path from now on.
    fn drop_link(&mut self, path: &Path)
        ensures { record_of self.new ≡ record_of self.old }
    {
        if let Some(at) = self.links.iter().position(|link| link.is(path)) {
            let _ = self.links.remove(at);
        }
    }

    fn file(&self, path: &Path) -> Option<usize>
        ensures { result ≡ (names_now (record_of self.now)).files path.now }
    {
        file_at(&self.first, self.made.as_slice(), text_of(path))
    }

    fn folder(&self, path: &Path) -> bool
        ensures { result ≡ (names_now (record_of self.now)).folders path.now }
    {
        has_folder(&self.first, self.made.as_slice(), text_of(path))
    }

    fn reaches(&self, path: &Path) -> bool
        ensures { result ≡ is_reachable (names_now (record_of self.now)).folders path.now }
    {
        is_reached(&self.first, self.made.as_slice(), text_of(path))
    }

    fn count(&self) -> usize
        ensures { result ≡ new_number (record_of self.now) }
    {
        count(&self.first, self.made.as_slice())
    }

    fn is_empty(&self, path: &Path) -> Result<bool, AllocError>
        ensures { IfOk result (λ is. is ≡ true → IsEmptyAt (names_now (record_of self.now)) path.now) }
    {
        let paths = paths(self.alloc, &self.first, self.made.as_slice())?;
        Ok(is_empty_at(&self.first, self.made.as_slice(), path, paths.as_slice()))
    }

    // Why a folder that isn't there isn't listed: nothing may stand below it.
    fn fault_of_absent(&self, folder: &Path) -> CallError
        ensures { result ≡ CallError.NotFound → IsEmptyAt (names_now (record_of self.now)) folder.now }
    {
        match self.is_empty(folder) {
            Ok(true) => CallError::NotFound,
            Ok(false) => CallError::Failed,
            Err(_) => CallError::Memory,
        }
    }

    fn list(&self, alloc: Global, folder: &Path, kind: Kind) -> Result<Vec<Name>, AllocError>
        ensures { IfOk result (λ found. IsListOf (stands_as kind (names_now (record_of self.now))) folder.now found.items) }
    {
        names_in(alloc, &self.first, self.made.as_slice(), folder, kind)
    }

    // Lets the call that was kept last go.
    fn undo(&mut self)
        ensures { record_of self.new ≡ without_last (record_of self.old) }
    {
        if !self.made.is_empty() {
            let _ = self.made.remove(0);
        }
    }

    // The calls on a folder that is there. Nothing stands in it at their beginning.
    fn new_part(&mut self, folder: &Path) -> Result<MemCalls, CallError>
        ensures empty { IfOk result (λ part. record_of part ≡ of_folders ([] ∷ [])) }
        ensures same { record_of self.new ≡ record_of self.old }
    {
        if !self.folder(folder) {
            return Err(CallError::NotFound);
        }
        if !self.look() {
            return Err(CallError::Failed);
        }
        let Ok(part) = MemCalls::new(self.alloc) else {
            return Err(CallError::Memory);
        };
        let failing = replace(&mut self.failing_in_part, Vec::new(self.alloc));
        Ok(part.failing(failing, self.makes_failing))
    }

    fn contents(&self, number: usize) -> Result<MemContents, CallError>
        ensures { IfOk result (λ file. contents_of file ≡ contents_now (record_of self.now) number) }
    {
        match contents(self.alloc, &self.first, self.made.as_slice(), number) {
            Ok(file) => Ok(file),
            Err(_) => Err(CallError::Memory),
        }
    }
}

// Reads from an offset on, as far as the buffer and one call go.
fn copy_from(bytes: &[u8], offset: u64, buffer: &mut [u8]) -> usize
    ensures count { result ≤ min (length buffer.old) (length bytes.now - offset) }
    ensures copied { buffer.new ≡ take result (drop offset bytes.now) ++ drop result buffer.old }
    ensures some { result ≡ 0 → (length buffer.old ≡ 0) ⊎ (length bytes.now ≤ offset) }
{
    let start = if offset < bytes.len() as u64 {
        offset as usize
    } else {
        bytes.len()
    };
    let rest = &bytes[start..];
    let count = rest.len().min(buffer.len()).min(AT_ONCE);
    buffer[..count].copy_from_slice(&rest[..count]);
    count
}

impl Calls for MemCalls {
    ghost use Rattle.std.specs.Prelude.{Some, refl};
    ghost use Rattle.fsfs_folders.specs.System.Paths.{has_path};
    ghost use Rattle.fsfs_memcalls.specs.Recorded.{record_of};

    type File = MemOpenFile;

    ghost history = { λ calls. Some (record_of calls) };

    ghost is_link = { λ calls path. has_path calls.links.items path };

    // Nobody else holds a lock in memory.
    fn lock_folder(&mut self, path: &Path) -> Result<(), CallError> {
        if !self.folder(path) {
            return Err(CallError::NotFound);
        }
        if !self.look() {
            return Err(CallError::Failed);
        }
        Ok(())
    }

    // The file of a lock that isn't there is made, and nothing is told of it.
    fn lock_file(&mut self, path: &Path, _mode: Option<Mode>) -> Result<(), CallError> {
        if self.folder(path) || self.is_link(path) {
            return Err(CallError::OtherKind);
        }
        if !self.look() {
            return Err(CallError::Failed);
        }
        Ok(())
    }

    fn unlock(&mut self) {}

    fn make_folder(&mut self, path: &Path, _mode: Option<Mode>) -> Result<(), CallError> {
        if self.file(path).is_some() || self.is_link(path) {
            return Err(CallError::Exists);
        }
        if !self.reaches(path) {
            return Err(CallError::NotFound);
        }
        self.make(MemCall::Named(MemChange::MakeFolder(path.copy())))
    }

    fn is_folder(&mut self, path: &Path) -> Result<bool, CallError> {
        if !self.look() {
            return Err(CallError::Failed);
        }
        if self.is_link(path) {
            return self.no_folder(path);
        }
        Ok(self.folder(path))
    }

    fn drop_folder(&mut self, path: &Path) -> Result<(), CallError> {
        if !self.folder(path) {
            return Err(CallError::NotFound);
        }
        let Ok(is_empty) = self.is_empty(path) else {
            return Err(CallError::Memory);
        };
        if !is_empty {
            return Err(CallError::Failed);
        }
        self.make(MemCall::Named(MemChange::DropFolder(path.copy())))
    }

    // What stands in a bench stands in a part's calls, and nothing below a bench's folder here.
    fn drop_tree(&mut self, path: &Path) -> Result<(), CallError> {
        self.drop_folder(path)
    }

    fn mode(&mut self, _path: &Path) -> Result<Option<Mode>, CallError> {
        Ok(None)
    }

    fn set_mode(&mut self, _file: &MemOpenFile, _mode: Mode) -> Result<(), CallError> {
        Ok(())
    }

    fn folders_in(&mut self, alloc: Global, folder: &Path) -> Result<Vec<Name>, CallError> {
        if !self.folder(folder) {
            return Err(self.fault_of_absent(folder));
        }
        if !self.look() {
            return Err(CallError::Failed);
        }
        match self.list(alloc, folder, Kind::Folder) {
            Ok(found) => Ok(found),
            Err(_) => Err(CallError::Memory),
        }
    }

    fn create(&mut self, path: &Path, _mode: Option<Mode>) -> Result<MemOpenFile, CallError> {
        if self.file(path).is_some() || self.folder(path) || self.is_link(path) {
            return Err(CallError::Exists);
        }
        if !self.reaches(path) {
            return Err(CallError::NotFound);
        }
        let number = self.count();
        if number == usize::MAX {
            return Err(CallError::Failed);
        }
        self.make(MemCall::Named(MemChange::Create(path.copy())))?;
        Ok(MemOpenFile { number })
    }

    fn open(&mut self, path: &Path) -> Result<MemOpenFile, CallError> {
        if self.folder(path) || self.is_link(path) {
            return Err(CallError::OtherKind);
        }
        let Some(number) = self.file(path) else {
            return Err(CallError::NotFound);
        };
        if !self.look() {
            return Err(CallError::Failed);
        }
        Ok(MemOpenFile { number })
    }

    fn open_to_append(&mut self, path: &Path) -> Result<MemOpenFile, CallError> {
        self.open(path)
    }

    fn length(&mut self, file: &MemOpenFile) -> Result<u64, CallError> {
        if !self.look() {
            return Err(CallError::Failed);
        }
        Ok(self.contents(file.number)?.bytes.len() as u64)
    }

    fn read_at(
        &mut self,
        file: &MemOpenFile,
        offset: u64,
        buffer: &mut [u8],
    ) -> Result<usize, CallError> {
        if !self.look() {
            return Err(CallError::Failed);
        }
        let found = self.contents(file.number)?;
        Ok(copy_from(found.bytes.as_slice(), offset, buffer))
    }

    fn append(&mut self, file: &MemOpenFile, bytes: &[u8]) -> Result<usize, CallError> {
        let count = bytes.len().min(AT_ONCE);
        let Ok(taken) = Vec::from_slice(self.alloc, &bytes[..count]) else {
            return Err(CallError::Memory);
        };
        self.make(MemCall::Append(file.number, taken))?;
        Ok(count)
    }

    // A sync that fails marks its file.
    fn sync_file(&mut self, file: &MemOpenFile) -> Result<(), CallError> {
        if self.faults.call().is_err() {
            self.add(MemCall::FailSync(file.number))?;
            return Err(CallError::Failed);
        }
        self.add(MemCall::SyncFile(file.number))
    }

    fn sync_folder(&mut self, path: &Path) -> Result<(), CallError> {
        if !self.folder(path) && path.as_str() != ".." {
            return Err(CallError::NotFound);
        }
        self.make(MemCall::SyncFolder(path.copy()))
    }

    fn rename(&mut self, from: &Path, to: &Path) -> Result<(), CallError> {
        if self.file(from).is_none() || !self.reaches(to) {
            return Err(CallError::NotFound);
        }
        if self.folder(to) {
            return Err(CallError::OtherKind);
        }
        self.make(MemCall::Named(MemChange::Rename(from.copy(), to.copy())))?;
        self.drop_link(to);
        Ok(())
    }

    fn remove(&mut self, path: &Path) -> Result<(), CallError> {
        if self.folder(path) {
            return Err(CallError::OtherKind);
        }
        // A link goes too. It is no file, and nothing is told of it.
        if self.file(path).is_none() {
            self.drop_link(path);
            return Err(CallError::NotFound);
        }
        self.make(MemCall::Named(MemChange::Remove(path.copy())))
    }

    fn firmed(&mut self) -> Result<(), CallError> {
        self.add(MemCall::Firmed)
    }

    fn part(&mut self, folder: &Path) -> Result<MemCalls, CallError> {
        let links = self.links_below(folder)?;
        Ok(self.new_part(folder)?.with_links(links))
    }

    fn empty_part(&mut self, folder: &Path) -> Result<MemCalls, CallError> {
        self.new_part(folder)
    }

    fn take(&mut self, part: &mut MemCalls, from: &Path, to: &Path) -> Result<(), CallError> {
        let Some(number) = part.file(from) else {
            return Err(CallError::NotFound);
        };
        if !self.reaches(to) {
            return Err(CallError::NotFound);
        }
        if self.folder(to) || self.count() == usize::MAX {
            return Err(CallError::Failed);
        }
        let taken = MemCall::Named(MemChange::Take(to.copy(), part.contents(number)?));
        let passes = self.faults.call().is_ok();
        if !passes && !self.makes_failing {
            return Err(CallError::Failed);
        }
        part.add(MemCall::Named(MemChange::Remove(from.copy())))?;
        if self.add(taken).is_err() {
            part.undo();
            return Err(CallError::Memory);
        }
        if passes {
            Ok(())
        } else {
            Err(CallError::Failed)
        }
    }

    ghost all_tell = { λ _ _. refl };
}
