// Calls on files and folders, made as often as it takes.
ghost use Rattle.std.specs.Prelude.{◌≡◌, length, Some, None, IfOk, IfSome, IsErrOf, OnOk, OnErr};
ghost use Rattle.fsfs_folders.specs.System.CallRecord.{names_now};
ghost use Rattle.fsfs_folders.specs.Quiet.{IsQuiet, IsSynced, MakesQuietly};
ghost use Rattle.fsfs_folders.specs.Writing.{Writes, WritesSome};
ghost use Rattle.fsfs_folders.specs.Standing.{IsWritten};

use crate::{CallError, Calls, Mode, Path};

/// Syncs these folders, in order, up to the first that fails.
pub fn sync_folders<C: Calls>(calls: &mut C, folders: &[Path]) -> Result<(), CallError>
    ensures quiet { IsQuiet (C.history calls.old) (C.history calls.new) }
    ensures ok { OnOk result (IsSynced folders.now (C.history calls.old) (C.history calls.new)) }
{
    for folder in folders {
        calls.sync_folder(folder)?;
    }
    Ok(())
}

/// Writes bytes at the end of a file.
pub fn append_all<C: Calls>(calls: &mut C, file: &C::File, bytes: &[u8]) -> Result<(), CallError>
    ensures ok { OnOk result (Writes (C.File.number file.now) bytes.now (C.history calls.old) (C.history calls.new)) }
    ensures err { OnErr result (WritesSome (C.File.number file.now) (length bytes.now) (C.history calls.old) (C.history calls.new)) }
{
    let mut rest = bytes;
    while !rest.is_empty() {
        let count = calls.append(file, rest)?;
        rest = &rest[count..];
    }
    Ok(())
}

// Gives a file that is open a mode, if one is wanted.
fn set_mode<C: Calls>(calls: &mut C, file: &C::File, mode: Option<Mode>) -> Result<(), CallError>
    ensures { C.history calls.new ≡ C.history calls.old }
{
    match mode {
        Some(mode) => calls.set_mode(file, mode),
        None => Ok(()),
    }
}

/// Opens a file to read and to sync it, and gives it this mode.
pub fn open_to_sync<C: Calls>(
    calls: &mut C,
    path: &Path,
    mode: Option<Mode>,
) -> Result<C::File, CallError>
    ensures there { IfSome (C.history calls.old) (λ r. IfOk result (λ file. (names_now r).files path.now ≡ Some (C.File.number file))) }
    ensures absent { IfSome (C.history calls.old) (λ r. IsErrOf result CallError.NotFound → (names_now r).files path.now ≡ None) }
    ensures same { C.history calls.new ≡ C.history calls.old }
{
    let file = calls.open(path)?;
    match set_mode(calls, &file, mode) {
        Ok(()) => Ok(file),
        Err(_) => Err(CallError::Failed),
    }
}

/// Makes a new file of these bytes, firm, and with this mode.
pub fn write_new<C: Calls>(
    calls: &mut C,
    path: &Path,
    bytes: &[u8],
    mode: Option<Mode>,
) -> Result<(), CallError>
    ensures made { MakesQuietly path.now (C.history calls.old) (C.history calls.new) }
    ensures written { OnOk result (IfSome (C.history calls.new) (λ r. IsWritten r path.now bytes.now)) }
{
    let file = calls.create(path, mode)?;
    append_all(calls, &file, bytes)?;
    calls.sync_file(&file)
}
