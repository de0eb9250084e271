// The calls that were made, and the files that they met, kept in memory.
ghost use Rattle.std.specs.Prelude.{◌≡◌, ◌++◌, IfOk, OnOk};
ghost use Rattle.fsfs_folders.specs.System.CallRecord.{no_contents, more_bytes, made_firm, made_lost};
ghost use Rattle.fsfs_memcalls.specs.Told.{contents_of};
ghost use Rattle.fsfs_memcalls.specs.Left.{left_bytes};

use fsfs_folders::Path;
use std::alloc::{AllocError, Global};

/// A file of the beginning.
#[derive(Drop)]
pub struct MemFile {
    pub path: Path,
    pub bytes: Vec<u8>,
}

/// What stood before the first call, all of it firm.
#[derive(Drop)]
pub struct MemBeginning {
    pub folders: Vec<Path>,
    pub files: Vec<MemFile>,
}

/// What a file has: its bytes, how many of them are firm, and whether a sync of it failed.
#[derive(Drop)]
pub struct MemContents {
    pub bytes: Vec<u8>,
    pub firm: usize,
    pub is_lost: bool,
}

/// A change of names.
#[derive(Drop)]
pub enum MemChange {
    MakeFolder(Path),
    DropFolder(Path),
    Create(Path),
    /// A file of a part that gets this name.
    Take(Path, MemContents),
    /// From the first path to the second.
    Rename(Path, Path),
    Remove(Path),
}

/// A call that did something. Files go by their numbers.
#[derive(Drop)]
pub enum MemCall {
    Named(MemChange),
    Append(usize, Vec<u8>),
    SyncFile(usize),
    FailSync(usize),
    SyncFolder(Path),
    Firmed,
}

impl MemContents {
    /// Nothing.
    pub fn none(alloc: Global) -> MemContents
        ensures { contents_of result ≡ no_contents }
    {
        MemContents {
            bytes: Vec::new(alloc),
            firm: 0,
            is_lost: false,
        }
    }

    /// The same once more.
    pub fn copy(&self, alloc: Global) -> Result<MemContents, AllocError>
        ensures { IfOk result (λ copy. contents_of copy ≡ contents_of self.now) }
    {
        Ok(MemContents {
            bytes: Vec::from_slice(alloc, self.bytes.as_slice())?,
            firm: self.firm,
            is_lost: self.is_lost,
        })
    }

    /// More bytes at the end.
    pub fn longer(mut self, bytes: &[u8]) -> Result<MemContents, AllocError>
        ensures { IfOk result (λ longer. contents_of longer ≡ more_bytes bytes.now (contents_of self)) }
    {
        self.bytes.extend_from_slice(bytes)?;
        Ok(self)
    }

    /// All bytes firm, unless a sync failed before.
    pub fn firmed(mut self) -> MemContents
        ensures { contents_of result ≡ made_firm (contents_of self) }
    {
        if !self.is_lost {
            self.firm = self.bytes.len();
        }
        self
    }

    /// The bytes that a crash leaves: all of them, or the firm ones.
    pub fn left(mut self, all_bytes: bool) -> Vec<u8>
        ensures { result.items ≡ left_bytes all_bytes (contents_of self) }
    {
        if !all_bytes {
            self.bytes.truncate(self.firm);
        }
        self.bytes
    }

    /// A sync of it failed.
    pub fn lost(mut self) -> MemContents
        ensures { contents_of result ≡ made_lost (contents_of self) }
    {
        self.is_lost = true;
        self
    }
}
