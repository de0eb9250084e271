// Calls on the files right in a folder.
ghost use Rattle.std.specs.Prelude.{◌≡◌, ◌⊎◌, ◌≤◌, ◌+◌, ◌^◌, Some, None, true, IfOk, IfSome, OnOk, OnErr, is_some, length, option_map};
ghost use Rattle.fsfs_folders.specs.System.CallRecord.{contents_now, more_bytes, no_contents, made_firm, made_lost};
ghost use Rattle.fsfs_folders.specs.System.Listing.{is_entry as entry};
ghost use Rattle.fsfs_folders.specs.BenchFiles.{file_held, file_or_new, Sets, SetsAny, Opens, Clears, HoldsNothing};
ghost use Rattle.fsfs_folders.specs.OpenFiles.{is_in_place};

use crate::folders::LONGEST;
use crate::opened::Opened;
use crate::texts::has_slash;
use crate::writing::{append_all, open_to_sync};
use crate::{CallError, Calls, Mode, Path};
use fsfs_base::Name;

/// Whether a name is one of a file right in the folder.
pub fn is_entry(name: &Name) -> bool
    ensures { result ≡ entry name.now }
{
    !name.as_str().is_empty() && !has_slash(name.as_str())
}

// Refuses a file that is open at whose end so many bytes can't be written.
fn check_room<C: Calls>(calls: &mut C, file: &C::File, more: usize) -> Result<(), CallError>
    requires { more ≤ 2 ^ 62 }
    ensures room { OnOk result (IfSome (C.history calls.old) (λ r. length (contents_now r (C.File.number file.now)).bytes + more ≤ 2 ^ 62)) }
    ensures same { C.history calls.new ≡ C.history calls.old }
{
    let length = calls.length(file)?;
    if ((LONGEST - more) as u64) < length {
        return Err(CallError::Failed);
    }
    Ok(())
}

// Opens a file at whose end so many bytes may be written. It is made where there is none.
fn open_for<C: Calls>(calls: &mut C, name: &Name, more: usize) -> Result<C::File, CallError>
    requires entry { entry name.now ≡ true }
    requires fits { more ≤ 2 ^ 62 }
    ensures ok { IfOk result (λ file. Opens name.now (C.File.number file) more (C.history calls.old) (C.history calls.new)) }
    ensures err { OnErr result (SetsAny name.now (C.history calls.old) (C.history calls.new)) }
{
    let path = Path::of(name);
    match calls.open_to_append(&path) {
        Ok(file) => {
            check_room(calls, &file, more)?;
            Ok(file)
        }
        Err(CallError::NotFound) => calls.create(&path, None),
        Err(error) => Err(error),
    }
}

// The same, where the file that was written last may be open still.
fn open_again<C: Calls + Drop>(
    calls: &mut C,
    last: Option<Opened<C>>,
    name: &Name,
    more: usize,
) -> Result<Opened<C>, CallError>
    requires entry { entry name.now ≡ true }
    requires fits { more ≤ 2 ^ 62 }
    requires last { is_in_place last (λ it. it.name) (λ it. C.File.number it.file) (C.history calls.old) ≡ true }
    ensures named { IfOk result (λ it. it.name ≡ name.now) }
    ensures ok { IfOk result (λ it. Opens name.now (C.File.number it.file) more (C.history calls.old) (C.history calls.new)) }
    ensures err { OnErr result (SetsAny name.now (C.history calls.old) (C.history calls.new)) }
{
    if let Some(opened) = last
        && opened.name.is(name)
    {
        check_room(calls, &opened.file, more)?;
        return Ok(opened);
    }
    let file = open_for(calls, name, more)?;
    Ok(Opened {
        name: name.copy(),
        file,
    })
}

/// Adds bytes at the end of a file, which begins with them where there is none. It stays open for more.
pub fn append_to<C: Calls + Drop>(
    calls: &mut C,
    last: &mut Option<Opened<C>>,
    name: &Name,
    bytes: &[u8],
) -> Result<(), CallError>
    requires entry { entry name.now ≡ true }
    requires last { is_in_place last.old (λ it. it.name) (λ it. C.File.number it.file) (C.history calls.old) ≡ true }
    ensures ok { OnOk result (Sets name.now (λ r. Some (more_bytes bytes.now (file_or_new r name.now))) (C.history calls.old) (C.history calls.new)) }
    ensures any { SetsAny name.now (C.history calls.old) (C.history calls.new) }
    ensures last { is_in_place last.new (λ it. it.name) (λ it. C.File.number it.file) (C.history calls.new) ≡ true }
{
    if LONGEST < bytes.len() {
        return Err(CallError::Failed);
    }
    let opened = open_again(calls, last.take(), name, bytes.len())?;
    append_all(calls, &opened.file, bytes)?;
    *last = Some(opened);
    Ok(())
}

/// Takes a file away. `false`: there was none.
pub fn remove_from<C: Calls>(calls: &mut C, name: &Name) -> Result<bool, CallError>
    requires { entry name.now ≡ true }
    ensures there { IfOk result (λ there. IfSome (C.history calls.old) (λ r. there ≡ is_some (file_held r name.now))) }
    ensures ok { OnOk result (Sets name.now (λ r. None) (C.history calls.old) (C.history calls.new)) }
    ensures any { SetsAny name.now (C.history calls.old) (C.history calls.new) }
{
    match calls.remove(&Path::of(name)) {
        Ok(()) => Ok(true),
        Err(CallError::NotFound) => Ok(false),
        Err(error) => Err(error),
    }
}

/// Makes a new file of these bytes, in place of the one that has the name.
pub fn write_to<C: Calls>(calls: &mut C, name: &Name, bytes: &[u8]) -> Result<(), CallError>
    requires { entry name.now ≡ true }
    ensures ok { OnOk result (Sets name.now (λ r. Some (more_bytes bytes.now no_contents)) (C.history calls.old) (C.history calls.new)) }
    ensures any { SetsAny name.now (C.history calls.old) (C.history calls.new) }
{
    if LONGEST < bytes.len() {
        return Err(CallError::Failed);
    }
    let _ = remove_from(calls, name)?;
    let file = calls.create(&Path::of(name), None)?;
    append_all(calls, &file, bytes)
}

/// Takes these files away, as far as they are there.
pub fn remove_all<C: Calls>(calls: &mut C, names: &[Name]) -> Result<(), CallError>
    ensures { OnOk result (Clears names.now (C.history calls.old) (C.history calls.new)) }
{
    for name in names {
        if !is_entry(name) {
            return Err(CallError::OtherKind);
        }
        let _ = remove_from(calls, name)?;
    }
    Ok(())
}

/// Makes the bytes of a file firm, if there is one, with this mode.
pub fn sync_in<C: Calls>(calls: &mut C, name: &Name, mode: Option<Mode>) -> Result<(), CallError>
    requires { entry name.now ≡ true }
    ensures ok { OnOk result (Sets name.now (λ r. option_map made_firm (file_held r name.now)) (C.history calls.old) (C.history calls.new)) }
    ensures err { OnErr result ((C.history calls.new ≡ C.history calls.old) ⊎ Sets name.now (λ r. option_map made_lost (file_held r name.now)) (C.history calls.old) (C.history calls.new)) }
{
    match open_to_sync(calls, &Path::of(name), mode) {
        Ok(file) => calls.sync_file(&file),
        Err(CallError::NotFound) => Ok(()),
        Err(error) => Err(error),
    }
}
