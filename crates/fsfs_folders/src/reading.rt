// Reads that go on until the buffer is full.
ghost use Rattle.std.specs.Prelude.{◌≡◌, ◌≤◌, Some, None, length, IfOk, IfSome, MatchOption};
ghost use Rattle.fsfs_folders.specs.System.CallRecord.{names_now, contents_now};
ghost use Rattle.fsfs_folders.specs.Writing.{IsFilled, bytes_there};
ghost use Rattle.fsfs_disk.specs.Trace.{IsRead, IsSize};

use crate::{CallError, Calls, Path};

/// Fills the buffer from an offset on, as far as the file goes. How many bytes that is.
pub fn fill<C: Calls>(
    calls: &mut C,
    file: &C::File,
    offset: u64,
    buffer: &mut [u8],
) -> Result<usize, CallError>
    ensures bound { IfOk result (λ n. n ≤ length buffer.new) }
    ensures bytes { IfSome (C.history calls.old) (λ r. IfOk result (IsFilled (contents_now r (C.File.number file.now)).bytes offset buffer.old buffer.new)) }
    ensures same { C.history calls.new ≡ C.history calls.old }
{
    let mut filled = 0;
    while filled < buffer.len() {
        let Some(from) = offset.checked_add(filled as u64) else {
            return Err(CallError::Failed);
        };
        let count = calls.read_at(file, from, &mut buffer[filled..])?;
        if count == 0 {
            return Ok(filled);
        }
        filled += count;
    }
    Ok(filled)
}

/// Opens a file to read it. `None`: there is no such file.
pub fn open_file<C: Calls>(calls: &mut C, path: &Path) -> Result<Option<C::File>, CallError>
    ensures there { IfSome (C.history calls.old) (λ r. IfOk result (λ found. MatchOption found ((names_now r).files path.now ≡ None) (λ file. (names_now r).files path.now ≡ Some (C.File.number file)))) }
    ensures same { C.history calls.new ≡ C.history calls.old }
{
    match calls.open(path) {
        Ok(file) => Ok(Some(file)),
        Err(CallError::NotFound) => Ok(None),
        Err(error) => Err(error),
    }
}

/// Fills the buffer from an offset of a file on, as far as that goes. `None`: there is no such file.
pub fn read_file<C: Calls>(
    calls: &mut C,
    path: &Path,
    offset: u64,
    buffer: &mut [u8],
) -> Result<Option<usize>, CallError>
    ensures bound { IfOk result (λ found. IfSome found (λ n. n ≤ length buffer.new)) }
    ensures bytes { IfSome (C.history calls.old) (λ r. IfOk result (IsRead (bytes_there r path.now) offset buffer.old buffer.new)) }
    ensures same { C.history calls.new ≡ C.history calls.old }
{
    match calls.open(path) {
        Ok(file) => Ok(Some(fill(calls, &file, offset, buffer)?)),
        Err(CallError::NotFound) => Ok(None),
        Err(error) => Err(error),
    }
}

/// The length of a file in bytes. `None`: there is no such file.
pub fn file_size<C: Calls>(calls: &mut C, path: &Path) -> Result<Option<u64>, CallError>
    ensures length { IfSome (C.history calls.old) (λ r. IfOk result (IsSize (bytes_there r path.now))) }
    ensures same { C.history calls.new ≡ C.history calls.old }
{
    match calls.open(path) {
        Ok(file) => Ok(Some(calls.length(&file)?)),
        Err(CallError::NotFound) => Ok(None),
        Err(error) => Err(error),
    }
}
