// What a mount makes ready, and what it takes away again.
ghost use Rattle.std.specs.Prelude.{◌≡◌, ◌≢◌, ℕ, List, Some, None, IfOk, IsTrue, OnOk, OnErr, string_bytes};
ghost use Rattle.fsfs_disk.specs.Accesses.{MayChange};
ghost use Rattle.std.specs.BTreeMap.{get_by_text};
ghost use Rattle.fsfs_folders.specs.Standing.{told};
ghost use Rattle.fsfs_mount.specs.Places.{told_at};

use crate::disk::FolderDisk;
use crate::doubts::doubt_names;
use crate::file_system::FileSystem;
use crate::found::{Found, Room};
use crate::ground::{
    MARK, absent_folders, holds_only_mark, is_there, refuse_below_repository, refuse_other_disks,
};
use crate::places::{add, put_back, take};
use fsfs_base::Name;
use fsfs_disk::Access;
use fsfs_folders::{CallError, Calls, Folders, Path};
use fsfs_layout::OnlyFile;
use std::alloc::Global;
use std::collections::BTreeMap;

// What a writer does to a repository that is there: takes the locks that Subversion's own writers take, their commits the one and their
// transactions the other as they begin, and learns what it has to know of its folders. A lock's file that isn't there is made, as they
// make it, with the mode of `db/current`, since whoever writes the one takes the other.
fn make_writable<F: FileSystem>(
    alloc: Global,
    files: &F,
    folders: &mut Folders<F::Root>,
    path: &str,
) -> Result<(), CallError>
    ensures { told (F.Root.history folders.new.calls) ≡ told (F.Root.history folders.old.calls) }
{
    let mode = folders.mode(&OnlyFile::Current.name())?;
    folders.lock_file(&OnlyFile::WriteLock.name(), mode)?;
    folders.lock_file(&OnlyFile::TxnCurrentLock.name(), mode)?;
    refuse_other_disks(files, alloc, path)?;
    // A creation may have been cut off as it took its mark away, the last that it does.
    let _ = folders.unmark(&Name::new(MARK));
    doubt_names(alloc, folders)
}

// Makes a repository that is there ready to be changed. Where there is none nothing is made, and nothing may be changed.
fn prepare_to_write<F: FileSystem>(
    alloc: Global,
    files: &F,
    folders: &mut Folders<F::Root>,
    path: &str,
) -> Result<Found, CallError>
    ensures { told (F.Root.history folders.new.calls) ≡ told (F.Root.history folders.old.calls) }
{
    if folders.size(&OnlyFile::Format.name())?.is_none() {
        return Ok(Found::Barred);
    }
    make_writable(alloc, files, folders, path)?;
    Ok(Found::Ready)
}

// Makes a folder ready for a creation, while its lock is held: refuses one with anything but what a creation leaves that was cut off,
// makes `db`, and marks that a creation has begun. The folders of a creation that weren't there.
fn make_room<F: FileSystem>(
    alloc: Global,
    files: &F,
    folders: &mut Folders<F::Root>,
    path: &str,
) -> Result<Vec<Name>, CallError>
    ensures { told (F.Root.history folders.new.calls) ≡ told (F.Root.history folders.old.calls) }
{
    refuse_below_repository(files, alloc, path)?;
    let absent = absent_folders(files, alloc, path)?;
    folders.make_folder(&Name::new("db"))?;
    folders.mark(&Name::new(MARK))?;
    folders.doubt(Path::new(".."))?;
    Ok(absent)
}

// Makes the folder itself, if it isn't there.
fn make_new<C: Calls + Drop>(folders: &mut Folders<C>, is_new: bool) -> Result<(), CallError>
    ensures { told (C.history folders.new.calls) ≡ told (C.history folders.old.calls) }
{
    if !is_new {
        return Ok(());
    }
    folders.make_folder(&Name::new(""))
}

// Drops the folder itself, if it was made and nothing stands in it.
fn drop_new<F: FileSystem>(files: &mut F, path: &str, is_new: bool)
    ensures { (p : List ℕ) → F.record_at files.new p ≡ F.record_at files.old p }
{
    if is_new {
        files.drop_empty(path);
    }
}

// Takes the lock of the folder, which is made where it isn't there, and makes room in it, where there is no repository yet.
fn prepare_new<F: FileSystem>(
    alloc: Global,
    files: &mut F,
    folders: &mut Folders<F::Root>,
    path: &str,
) -> Result<Found, CallError>
    ensures told { told (F.Root.history folders.new.calls) ≡ told (F.Root.history folders.old.calls) }
    ensures same { (p : List ℕ) → F.record_at files.new p ≡ F.record_at files.old p }
{
    let is_new = !is_there(files, alloc, path, "");
    if make_new(folders, is_new).is_err() {
        return Ok(Found::Barred);
    }
    folders.lock_folder(&Path::new(""))?;
    if folders.size(&OnlyFile::Format.name())?.is_some() {
        return Ok(Found::Barred);
    }
    match make_room(alloc, files, folders, path) {
        Ok(absent) => Ok(Found::Room(Room { is_new, absent })),
        Err(error) => {
            drop_new(files, path, is_new);
            Err(error)
        }
    }
}

// Makes ready a folder in which a repository is to be made. One that is there stays as it is: the creation refuses it.
fn prepare_to_create<F: FileSystem>(
    alloc: Global,
    files: &mut F,
    folders: &mut Folders<F::Root>,
    path: &str,
) -> Result<Found, CallError>
    ensures told { told (F.Root.history folders.new.calls) ≡ told (F.Root.history folders.old.calls) }
    ensures same { (p : List ℕ) → F.record_at files.new p ≡ F.record_at files.old p }
{
    if folders.size(&OnlyFile::Format.name())?.is_some() {
        return Ok(Found::Barred);
    }
    prepare_new(alloc, files, folders, path)
}

// Makes ready what stands at a path, for what it is mounted for.
fn prepare<F: FileSystem>(
    alloc: Global,
    files: &mut F,
    folders: &mut Folders<F::Root>,
    path: &str,
    access: Access,
) -> Result<Found, CallError>
    ensures told { told (F.Root.history folders.new.calls) ≡ told (F.Root.history folders.old.calls) }
    ensures same { (p : List ℕ) → F.record_at files.new p ≡ F.record_at files.old p }
{
    match access {
        Access::Read => Ok(Found::Ready),
        Access::Write => prepare_to_write(alloc, files, folders, path),
        Access::Create => prepare_to_create(alloc, files, folders, path),
    }
}

// Makes the place of a path, where there is none.
fn make_place<F: FileSystem>(
    alloc: Global,
    files: &mut F,
    places: &mut BTreeMap<String, Option<Folders<F::Root>>>,
    path: &str,
) -> Result<(), CallError>
    ensures { (p : List ℕ) → told_at (λ folders. F.Root.history folders.calls) (get_by_text places.new p) (F.record_at files.new p) ≡ told_at (λ folders. F.Root.history folders.calls) (get_by_text places.old p) (F.record_at files.old p) }
{
    if places.contains_key(path) {
        return Ok(());
    }
    let owned = String::from_str(alloc, path)?;
    let calls = files.open(path)?;
    add(places, owned, Folders::new(alloc, calls))
}

// Takes out of its place what stands at a path. `Exists`: it is out.
fn take_out<F: FileSystem>(
    alloc: Global,
    files: &mut F,
    places: &mut BTreeMap<String, Option<Folders<F::Root>>>,
    path: &str,
) -> Result<Folders<F::Root>, CallError>
    ensures told { IfOk result (λ folders. told (F.Root.history folders.calls) ≡ told_at (λ folders. F.Root.history folders.calls) (get_by_text places.old path.now) (F.record_at files.old path.now)) }
    ensures out { OnOk result (get_by_text places.new path.now ≡ Some None) }
    ensures others { (p : List ℕ) → p ≢ path.now → told_at (λ folders. F.Root.history folders.calls) (get_by_text places.new p) (F.record_at files.new p) ≡ told_at (λ folders. F.Root.history folders.calls) (get_by_text places.old p) (F.record_at files.old p) }
    ensures err { OnErr result (told_at (λ folders. F.Root.history folders.calls) (get_by_text places.new path.now) (F.record_at files.new path.now) ≡ told_at (λ folders. F.Root.history folders.calls) (get_by_text places.old path.now) (F.record_at files.old path.now)) }
{
    make_place(alloc, files, places, path)?;
    match take(places, path) {
        Some(folders) => Ok(folders),
        None => Err(CallError::Exists),
    }
}

/// The disk of a path that isn't mounted, made ready for what it is mounted for.
pub fn open_disk<F: FileSystem>(
    alloc: Global,
    files: &mut F,
    places: &mut BTreeMap<String, Option<Folders<F::Root>>>,
    path: &str,
    access: Access,
) -> Result<FolderDisk<F::Root>, CallError>
    ensures told { IfOk result (λ disk. told (F.Root.history disk.folders.calls) ≡ told_at (λ folders. F.Root.history folders.calls) (get_by_text places.old path.now) (F.record_at files.old path.now)) }
    ensures out { OnOk result (get_by_text places.new path.now ≡ Some None) }
    ensures others { (p : List ℕ) → p ≢ path.now → told_at (λ folders. F.Root.history folders.calls) (get_by_text places.new p) (F.record_at files.new p) ≡ told_at (λ folders. F.Root.history folders.calls) (get_by_text places.old p) (F.record_at files.old p) }
    ensures err { OnErr result (told_at (λ folders. F.Root.history folders.calls) (get_by_text places.new path.now) (F.record_at files.new path.now) ≡ told_at (λ folders. F.Root.history folders.calls) (get_by_text places.old path.now) (F.record_at files.old path.now)) }
    ensures path { IfOk result (λ disk. string_bytes disk.path ≡ path.now) }
    ensures writes { IfOk result (λ disk. MayChange access → IsTrue disk.writes) }
    ensures faults { IfOk result (λ disk. disk.faults ≡ 0) }
    ensures benches { IfOk result (λ disk. disk.bench_faults ≡ 0) }
{
    if path.is_empty() {
        return Err(CallError::NotFound);
    }
    let owned = String::from_str(alloc, path)?;
    let mut folders = take_out(alloc, files, places, path)?;
    match prepare(alloc, files, &mut folders, path, access) {
        Ok(found) => {
            let writes = access.may_change();
            Ok(FolderDisk::over(alloc, folders, found, owned, writes))
        }
        Err(error) => {
            folders.unlock();
            put_back(places, path, folders);
            Err(error)
        }
    }
}

// Drops those of these folders that are there, the last first, as far as nothing stands in them.
fn drop_all<F: FileSystem>(
    alloc: Global,
    files: &F,
    folders: &mut Folders<F::Root>,
    path: &str,
    names: &[Name],
)
    ensures { told (F.Root.history folders.new.calls) ≡ told (F.Root.history folders.old.calls) }
{
    for name in names.iter().rev() {
        if is_there(files, alloc, path, name.as_str()) {
            let _ = folders.drop_folder(name);
        }
    }
}

// The creation is over: its mark goes, where a repository came to stand or nothing is left of it.
fn take_mark_away<F: FileSystem>(
    alloc: Global,
    files: &F,
    folders: &mut Folders<F::Root>,
    path: &str,
    is_made: bool,
)
    ensures { told (F.Root.history folders.new.calls) ≡ told (F.Root.history folders.old.calls) }
{
    if is_made || holds_only_mark(files, alloc, path) {
        let _ = folders.unmark(&Name::new(MARK));
    }
}

// Behind a creation its mark goes; and where no repository came to stand, what was made for one, as far as it is empty.
fn take_away<F: FileSystem>(
    alloc: Global,
    files: &mut F,
    folders: &mut Folders<F::Root>,
    path: &str,
    found: &Found,
)
    ensures told { told (F.Root.history folders.new.calls) ≡ told (F.Root.history folders.old.calls) }
    ensures same { (p : List ℕ) → F.record_at files.new p ≡ F.record_at files.old p }
{
    let Found::Room(room) = found else {
        return;
    };
    match folders.size(&OnlyFile::Format.name()) {
        Ok(None) => {
            drop_all(alloc, files, folders, path, room.inner());
            take_mark_away(alloc, files, folders, path, false);
            drop_all(alloc, files, folders, path, room.outer());
            drop_new(files, path, room.is_new);
        }
        Ok(Some(_)) => take_mark_away(alloc, files, folders, path, true),
        Err(_) => {}
    }
}

/// Puts back what stands at a path, without its locks and what was made there for nothing.
pub fn give_back<F: FileSystem>(
    alloc: Global,
    files: &mut F,
    places: &mut BTreeMap<String, Option<Folders<F::Root>>>,
    path: &str,
    folders: Folders<F::Root>,
    found: &Found,
)
    requires { get_by_text places.old path.now ≡ Some None }
    ensures back { told_at (λ folders. F.Root.history folders.calls) (get_by_text places.new path.now) (F.record_at files.new path.now) ≡ told (F.Root.history folders.calls) }
    ensures others { (p : List ℕ) → p ≢ path.now → told_at (λ folders. F.Root.history folders.calls) (get_by_text places.new p) (F.record_at files.new p) ≡ told_at (λ folders. F.Root.history folders.calls) (get_by_text places.old p) (F.record_at files.old p) }
{
    let mut folders = folders;
    take_away(alloc, files, &mut folders, path, found);
    folders.unlock();
    put_back(places, path, folders);
}
