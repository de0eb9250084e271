// The files that were read stay open for the reads that follow.
ghost use Rattle.std.specs.Prelude.{◌≡◌, ◌≤◌, ℕ, List, Option, None, Some, [], All, length, true, IfOk, IfSome, OnOk, MatchOption, IsTrue};
ghost use Rattle.fsfs_disk.specs.Trace.{IsRead, IsSize, file_at};
ghost use Rattle.fsfs_folders.specs.System.CallRecord.{CallRecord};
ghost use Rattle.fsfs_folders.specs.Standing.{told};
ghost use Rattle.fsfs_folders.specs.OpenFiles.{is_file_of};
ghost use Rattle.fsfs_mount.specs.OpenFiles.{AreStill};

use fsfs_base::Name;
use fsfs_folders::{CallError, Calls, Folders, Opened};
use std::alloc::Global;
use std::mem;

// How many files stay open beside the one that was used last.
const MOST_OTHERS: usize = 63;

/// The files of a repository that stay open, by their names.
#[derive(Drop)]
pub struct OpenFiles<C: Calls + Drop> {
    last: Option<Opened<C>>,
    others: Vec<Opened<C>>,
    // Which of the others goes next, where there are as many as may be.
    next: usize,
    // The last call opened the one that was used last, to tell its size: nothing of it has been read.
    is_new: bool,
}

// Whether the file that is open was opened by this name.
fn is_of<C: Calls + Drop>(opened: &Option<Opened<C>>, name: &Name) -> bool
    ensures { IsTrue result → MatchOption opened.now ⊥ (λ opened. opened.name ≡ name.now) }
{
    match opened {
        Some(opened) => opened.name.is(name),
        None => false,
    }
}

impl<C: Calls + Drop> OpenFiles<C> {
    /// No file is open.
    pub fn new(alloc: Global) -> OpenFiles<C>
        ensures last { result.last ≡ None }
        ensures others { result.others.items ≡ [] }
    {
        OpenFiles {
            last: None,
            others: Vec::new(alloc),
            next: 0,
            is_new: false,
        }
    }

    /// Closes all.
    pub fn close(&mut self)
        ensures last { self.new.last ≡ None }
        ensures others { self.new.others.items ≡ [] }
    {
        self.last = None;
        self.others.clear();
    }

    // Keeps a file open beside the one that was used last, in the place of another where there are as many as may be. Where no memory is
    // to be had it is closed.
    fn keep(&mut self, opened: Opened<C>)
        ensures last { self.new.last ≡ self.old.last }
        ensures others { (calls : Option CallRecord) → All (λ it. is_file_of calls it.name (C.File.number it.file) ≡ true) self.old.others.items → is_file_of calls opened.name (C.File.number opened.file) ≡ true → All (λ it. is_file_of calls it.name (C.File.number it.file) ≡ true) self.new.others.items }
    {
        if self.others.len() < MOST_OTHERS {
            let _ = self.others.push(opened);
        } else {
            let at = if self.next < self.others.len() {
                self.next
            } else {
                0
            };
            self.others[at] = opened;
            self.next = at + 1;
        }
    }

    // Takes the file of a name from the others, if it is one of them.
    fn take(&mut self, name: &Name) -> Option<Opened<C>>
        ensures last { self.new.last ≡ self.old.last }
        ensures taken { (calls : Option CallRecord) → All (λ it. is_file_of calls it.name (C.File.number it.file) ≡ true) self.old.others.items → IfSome result (λ it. is_file_of calls it.name (C.File.number it.file) ≡ true) }
        ensures others { (calls : Option CallRecord) → All (λ it. is_file_of calls it.name (C.File.number it.file) ≡ true) self.old.others.items → All (λ it. is_file_of calls it.name (C.File.number it.file) ≡ true) self.new.others.items }
    {
        let at = self.others.iter().position(|it| it.name.is(name))?;
        Some(self.others.swap_remove(at))
    }

    // Makes a file, or none, the one that was used last. What was it before is kept, unless it has the same name.
    fn use_next(&mut self, opened: Option<Opened<C>>, name: &Name)
        ensures last { self.new.last ≡ opened }
        ensures others { (calls : Option CallRecord) → AreStill self.old.last self.old.others.items (λ it. it.name) (λ it. C.File.number it.file) calls → All (λ it. is_file_of calls it.name (C.File.number it.file) ≡ true) self.new.others.items }
    {
        if let Some(before) = mem::replace(&mut self.last, opened) {
            if !before.name.is(name) {
                self.keep(before);
            }
        }
    }

    // Opens the file of a name, if there is one. One that is open serves, unless it is to be opened anew.
    fn open(&mut self, folders: &mut Folders<C>, name: &Name, anew: bool) -> Result<(), CallError>
        requires { AreStill self.old.last self.old.others.items (λ it. it.name) (λ it. C.File.number it.file) (C.history folders.old.calls) }
        ensures found { OnOk result (MatchOption self.new.last (IfSome (told (C.history folders.old.calls)) (λ t. file_at t name.now ≡ None)) (λ opened. opened.name ≡ name.now)) }
        ensures still { AreStill self.new.last self.new.others.items (λ it. it.name) (λ it. C.File.number it.file) (C.history folders.old.calls) }
        ensures same { C.history folders.new.calls ≡ C.history folders.old.calls }
    {
        self.is_new = false;
        if !anew && is_of(&self.last, name) {
            return Ok(());
        }
        let kept = self.take(name);
        if !anew && is_of(&kept, name) {
            self.use_next(kept, name);
            return Ok(());
        }
        let opened = match folders.open(name) {
            // The process may have no number left for a file.
            Err(CallError::Failed) if !self.others.is_empty() => {
                self.others.clear();
                folders.open(name)?
            }
            found => found?,
        };
        self.use_next(opened, name);
        self.is_new = true;
        Ok(())
    }

    // Whether a read from this offset on opens the file of a name anew.
    fn is_read_anew(&self, name: &Name, offset: u64) -> bool {
        offset == 0 && !(self.is_new && is_of(&self.last, name))
    }

    /// Fills the buffer from an offset on, as far as the file goes. `None`: there is no such file. A read from the beginning opens the
    /// file anew, since another process may have put another in its place, unless the call before opened it to tell its size.
    pub fn read(
        &mut self,
        folders: &mut Folders<C>,
        name: &Name,
        offset: u64,
        buffer: &mut [u8],
    ) -> Result<Option<usize>, CallError>
        requires { AreStill self.old.last self.old.others.items (λ it. it.name) (λ it. C.File.number it.file) (C.history folders.old.calls) }
        ensures bound { IfOk result (λ found. IfSome found (λ n. n ≤ length buffer.new)) }
        ensures bytes { IfSome (told (C.history folders.old.calls)) (λ t. IfOk result (IsRead (file_at t name.now) offset buffer.old buffer.new)) }
        ensures still { AreStill self.new.last self.new.others.items (λ it. it.name) (λ it. C.File.number it.file) (C.history folders.new.calls) }
        ensures same { C.history folders.new.calls ≡ C.history folders.old.calls }
    {
        self.open(folders, name, self.is_read_anew(name, offset))?;
        self.is_new = false;
        match &self.last {
            Some(opened) => Ok(Some(folders.read_open(opened, offset, buffer)?)),
            None => Ok(None),
        }
    }

    /// The length of a file in bytes. `None`: there is no such file.
    pub fn size(&mut self, folders: &mut Folders<C>, name: &Name) -> Result<Option<u64>, CallError>
        requires { AreStill self.old.last self.old.others.items (λ it. it.name) (λ it. C.File.number it.file) (C.history folders.old.calls) }
        ensures length { IfSome (told (C.history folders.old.calls)) (λ t. IfOk result (IsSize (file_at t name.now))) }
        ensures still { AreStill self.new.last self.new.others.items (λ it. it.name) (λ it. C.File.number it.file) (C.history folders.new.calls) }
        ensures same { C.history folders.new.calls ≡ C.history folders.old.calls }
    {
        self.open(folders, name, false)?;
        match &self.last {
            Some(opened) => Ok(Some(folders.size_open(opened)?)),
            None => Ok(None),
        }
    }
}
