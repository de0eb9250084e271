//! Reads of single files, as a book answers.
ghost use Rattle.std.specs.Prelude.{◌≡◌, ◌≤◌, ◌<◌, ℕ, List, Option, length, take, unwrap_or, [], IfOk, IfErr, IfSome};
ghost use Rattle.std.specs.FinMap.{get};
ghost use Rattle.fsfs_disk.specs.Trace.{IsRead, IsSize};
ghost use Rattle.fsfs_revision.specs.declared.book.BookFault.{BookFault};
ghost use Rattle.fsfs_revision.specs.declared.book.BookFault.TheVariants.{DiskFault};
ghost use Rattle.fsfs_revision.specs.Told.{HasCause, IsAbout};
ghost use Rattle.fsfs_fetch.specs.Views.{Later};
ghost use Rattle.fsfs_fetch.specs.Answers.{Stays, MayGo, FromFile, part_of_file, size_of_file, OnlyMemory};

use crate::parts::StoreParts;
use crate::reads::Reads;
use fsfs_base::{Name, RevNum};
use fsfs_disk::{FileFault, read_file};
use fsfs_revision::BookFault;
use std::alloc::Global;

pub(crate) fn read_at<R: Reads>(
    reads: &mut R,
    name: &Name,
    offset: u64,
    buffer: &mut [u8],
) -> Result<Option<usize>, BookFault>
    ensures bound { IfOk result (λ found. IfSome found (λ n. n ≤ length buffer.new)) }
    ensures bytes { IfSome (R.view reads.new).files (λ m. IfOk result (IsRead (get m name.now) offset buffer.old buffer.new)) }
    ensures failed { IfErr result (λ e. e ≡ DiskFault) }
    ensures later { Later (R.view reads.old) (R.view reads.new) }
    ensures cause { HasCause (R.faults reads.old) (R.faults reads.new) result }
{
    match reads.read(name, offset, buffer) {
        Ok(found) => Ok(found),
        Err(_) => Err(BookFault::DiskFault),
    }
}

pub(crate) fn size_at<R: Reads>(reads: &mut R, name: &Name) -> Result<Option<u64>, BookFault>
    ensures length { IfSome (R.view reads.new).files (λ m. IfOk result (IsSize (get m name.now))) }
    ensures failed { IfErr result (λ e. e ≡ DiskFault) }
    ensures later { Later (R.view reads.old) (R.view reads.new) }
    ensures cause { HasCause (R.faults reads.old) (R.faults reads.new) result }
{
    match reads.size(name) {
        Ok(found) => Ok(found),
        Err(_) => Err(BookFault::DiskFault),
    }
}

// The bytes of a small file, no more than its first `most`; none where there is no such file.
pub(crate) fn load<R: Reads>(
    alloc: Global,
    reads: &mut R,
    name: &Name,
    most: usize,
) -> Result<Vec<u8>, BookFault>
    requires { 0 < most }
    ensures told { (file : Option (List ℕ)) → Stays (R.view reads.old) name.now file → IfOk result (λ v. v.items ≡ take most (unwrap_or file [])) }
    ensures failed { IfErr result OnlyMemory }
    ensures later { Later (R.view reads.old) (R.view reads.new) }
    ensures cause { HasCause (R.faults reads.old) (R.faults reads.new) result }
{
    match read_file(alloc, &mut StoreParts { reads }, name, most) {
        Ok(Some(bytes)) => Ok(bytes),
        Ok(None) => Ok(Vec::new(alloc)),
        Err(FileFault::Failed) => Err(BookFault::DiskFault),
        Err(FileFault::Memory) => Err(BookFault::OutOfMemory),
    }
}

// The size of a revision's own file. `None`: there is no such file.
pub(crate) fn file_len<R: Reads>(reads: &mut R, name: &Name) -> Result<Option<u64>, BookFault>
    ensures told { (file : Option (List ℕ)) → MayGo (R.view reads.old) name.now file → FromFile file (R.view reads.new).files name.now (λ n. n) size_of_file result }
    ensures failed { IfErr result (λ e. e ≡ DiskFault) }
    ensures later { Later (R.view reads.old) (R.view reads.new) }
    ensures cause { HasCause (R.faults reads.old) (R.faults reads.new) result }
{
    size_at(reads, name)
}

// A part of a revision's own file. `None`: there is no such file.
pub(crate) fn file_part<R: Reads>(
    reads: &mut R,
    name: &Name,
    rev: RevNum,
    offset: u64,
    buffer: &mut [u8],
) -> Result<Option<usize>, BookFault>
    ensures bound { IfOk result (λ found. IfSome found (λ n. n ≤ length buffer.new)) }
    ensures told { (file : Option (List ℕ)) → MayGo (R.view reads.old) name.now file → FromFile file (R.view reads.new).files name.now (λ n. take n buffer.new) (part_of_file rev offset (length buffer.old)) result }
    ensures about { IfErr result (IsAbout rev offset) }
    ensures later { Later (R.view reads.old) (R.view reads.new) }
    ensures cause { HasCause (R.faults reads.old) (R.faults reads.new) result }
{
    let Some(count) = read_at(reads, name, offset, buffer)? else {
        return Ok(None);
    };
    if count > 0 {
        return Ok(Some(count));
    }
    // Nothing comes at the end of a file and past it alike.
    match size_at(reads, name)? {
        None => Ok(None),
        Some(size) => {
            if size < offset {
                return Err(BookFault::Short { rev, offset });
            }
            Ok(Some(0))
        }
    }
}
