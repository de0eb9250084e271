// The calls of the system, one for one.
ghost use Rattle.std.specs.Prelude.{◌≡◌, ◌≤◌, ◌<◌, ◌-◌, ◌⊎◌, ◌++◌, min, ℕ, List, Option, Some, None, Bool, true, false, length, take, drop, option_map, is_some, IfOk, IfSome, OnOk, OnErr, IsErrOf};
ghost use Rattle.fsfs_folders.specs.System.CallRecord.{CallRecord, MakeFolder, DropFolder, Create, Rename, Remove, Append, SyncFile, FailSync, SyncFolder, Firmed, Makes, MayMake, Does, Begins, Takes, MayTake, names_now, contents_now, new_number, IsEmptyAt};
ghost use Rattle.fsfs_folders.specs.BenchFiles.{HoldsNothing};
ghost use Rattle.fsfs_folders.specs.System.Listing.{IsListOf};

use crate::system::error::CallError;
use crate::system::mode::Mode;
use crate::system::path::Path;
use fsfs_base::Name;
use std::alloc::Global;
use std::fs::File;

/// A file that is open. It stays the same file, whatever becomes of its name.
pub trait OpenFile: Drop {
    /// Its number in the record.
    ghost number: { Self → ℕ };
}

// A file of the machine: nothing is told of it.
impl OpenFile for File {
    ghost number = { λ _. 0 };
}

/// The calls of the system on files and folders below one folder, as the system has them. A call that a signal interrupts is made
/// again.
///
/// A path below a folder that a part is asked for is in that part's record alone: neither these calls, but by `take`, nor another part
/// is asked for it.
pub trait Calls {
    type File: OpenFile;

    /// What stood below the folder and the calls since that did something; none where it doesn't tell.
    ghost history: { Self → Option CallRecord };

    /// Whether a link has a path. Below a part's folder, and right in the folder of transactions, a name is looked at itself, never what
    /// it leads to: there a link is neither a file nor a folder. Elsewhere it goes for what it leads to, and this says nothing of it.
    ghost is_link: { Self → List ℕ → Bool };

    /// Takes the lock of a folder that is there, and holds it until `unlock`, or until these calls are let go. `Locked`: another process
    /// holds it.
    fn lock_folder(&mut self, path: &Path) -> Result<(), CallError>
        ensures same { history self.new ≡ history self.old };

    /// Takes the lock of a file. Where there is none an empty one is made for it, with this mode, of which the record doesn't tell: what
    /// stands in such a file is never looked at.
    fn lock_file(&mut self, path: &Path, mode: Option<Mode>) -> Result<(), CallError>
        ensures same { history self.new ≡ history self.old };

    /// Lets all locks go that were taken.
    fn unlock(&mut self)
        ensures same { history self.new ≡ history self.old };

    /// Makes a folder in one that is there, also where it is there itself. One that is made gets this mode.
    fn make_folder(&mut self, path: &Path, mode: Option<Mode>) -> Result<(), CallError>
        ensures ok { OnOk result (Makes (MakeFolder path.now) (history self.old) (history self.new)) }
        ensures err { OnErr result (MayMake (MakeFolder path.now) (history self.old) (history self.new)) }
        ensures links { (p : List ℕ) → is_link self.new p ≡ is_link self.old p };

    /// Whether a folder itself has a path: a link to one is none.
    fn is_folder(&mut self, path: &Path) -> Result<bool, CallError>
        ensures folder { IfSome (history self.old) (λ r. IfOk result (λ is. is ≡ (names_now r).folders path.now)) }
        ensures link { is_link self.old path.now ≡ true → IfOk result (λ is. is ≡ false) }
        ensures same { history self.new ≡ history self.old };

    /// Drops a folder in which nothing stands.
    fn drop_folder(&mut self, path: &Path) -> Result<(), CallError>
        ensures ok { OnOk result (Makes (DropFolder path.now) (history self.old) (history self.new)) }
        ensures absent { IfSome (history self.old) (λ r. IsErrOf result CallError.NotFound → (names_now r).folders path.now ≡ false) }
        ensures same { IsErrOf result CallError.NotFound → history self.new ≡ history self.old }
        ensures err { OnErr result (MayMake (DropFolder path.now) (history self.old) (history self.new)) };

    /// Drops a folder with all that stands below it, whatever it is and whatever name it has. No link is followed.
    fn drop_tree(&mut self, path: &Path) -> Result<(), CallError>
        ensures ok { OnOk result (Makes (DropFolder path.now) (history self.old) (history self.new)) }
        ensures absent { IfSome (history self.old) (λ r. IsErrOf result CallError.NotFound → (names_now r).folders path.now ≡ false) }
        ensures same { IsErrOf result CallError.NotFound → history self.new ≡ history self.old }
        ensures err { OnErr result (MayMake (DropFolder path.now) (history self.old) (history self.new)) };

    /// The mode of what has a path. `None`: nothing has it.
    fn mode(&mut self, path: &Path) -> Result<Option<Mode>, CallError>
        ensures same { history self.new ≡ history self.old };

    /// Gives a file that is open a mode.
    fn set_mode(&mut self, file: &Self::File, mode: Mode) -> Result<(), CallError>
        ensures same { history self.new ≡ history self.old };

    /// The names of the folders next below a folder, in no order. Names of more than 128 bytes, or that aren't UTF-8, are passed over.
    /// `NotFound`: there is no such folder, and so nothing below it.
    fn folders_in(&mut self, alloc: Global, folder: &Path) -> Result<Vec<Name>, CallError>
        ensures names { IfSome (history self.old) (λ r. IfOk result (λ found. IsListOf (names_now r).folders folder.now found.items)) }
        ensures absent { IfSome (history self.old) (λ r. IsErrOf result CallError.NotFound → (names_now r).folders folder.now ≡ false) }
        ensures bare { IfSome (history self.old) (λ r. IsErrOf result CallError.NotFound → IsEmptyAt (names_now r) folder.now) }
        ensures same { history self.new ≡ history self.old };

    /// Makes an empty file with this mode where nothing has the name, and opens it to read and to write.
    fn create(&mut self, path: &Path, mode: Option<Mode>) -> Result<Self::File, CallError>
        ensures ok { OnOk result (Makes (Create path.now) (history self.old) (history self.new)) }
        ensures number { IfSome (history self.old) (λ r. IfOk result (λ file. Self.File.number file ≡ new_number r)) }
        ensures err { OnErr result (MayMake (Create path.now) (history self.old) (history self.new)) };

    /// Opens a file to read it. A folder or a device is `OtherKind`.
    fn open(&mut self, path: &Path) -> Result<Self::File, CallError>
        ensures there { IfSome (history self.old) (λ r. IfOk result (λ file. (names_now r).files path.now ≡ Some (Self.File.number file))) }
        ensures absent { IfSome (history self.old) (λ r. IsErrOf result CallError.NotFound → (names_now r).files path.now ≡ None) }
        ensures same { history self.new ≡ history self.old };

    /// Opens a file that is there to read it and to write at its end. A folder or a device is `OtherKind`.
    fn open_to_append(&mut self, path: &Path) -> Result<Self::File, CallError>
        ensures there { IfSome (history self.old) (λ r. IfOk result (λ file. (names_now r).files path.now ≡ Some (Self.File.number file))) }
        ensures absent { IfSome (history self.old) (λ r. IsErrOf result CallError.NotFound → (names_now r).files path.now ≡ None) }
        ensures same { history self.new ≡ history self.old };

    /// The length of a file in bytes.
    fn length(&mut self, file: &Self::File) -> Result<u64, CallError>
        ensures length { IfSome (history self.old) (λ r. IfOk result (λ n. n ≡ length (contents_now r (Self.File.number file.now)).bytes)) }
        ensures same { history self.new ≡ history self.old };

    /// Reads from an offset on as many bytes as the system gives at once, none only at the end or where none are asked for.
    fn read_at(
        &mut self,
        file: &Self::File,
        offset: u64,
        buffer: &mut [u8],
    ) -> Result<usize, CallError>
        ensures bound { IfOk result (λ n. n ≤ min (length buffer.new) (length buffer.old)) }
        ensures bytes { IfSome (history self.old) (λ r. IfOk result (λ n. buffer.new ≡ take n (drop offset (contents_now r (Self.File.number file.now)).bytes) ++ drop n buffer.old)) }
        ensures within { IfSome (history self.old) (λ r. IfOk result (λ n. n ≤ length (contents_now r (Self.File.number file.now)).bytes - offset)) }
        ensures end { IfSome (history self.old) (λ r. IfOk result (λ n. n ≡ 0 → (length buffer.old ≡ 0) ⊎ (length (contents_now r (Self.File.number file.now)).bytes ≤ offset))) }
        ensures same { history self.new ≡ history self.old };

    /// Writes at the end of a file that is open to write as many bytes as the system takes at once, one at least. Where it fails any
    /// bytes may stand there, no more than were given.
    fn append(&mut self, file: &Self::File, bytes: &[u8]) -> Result<usize, CallError>
        requires { 0 < length bytes.now }
        ensures count { IfOk result (λ n. (0 < n) × (n ≤ length bytes.now)) }
        ensures ok { IfOk result (λ n. Does (Append (Self.File.number file.now) (take n bytes.now)) (history self.old) (history self.new)) }
        ensures err { OnErr result ((history self.new ≡ history self.old) ⊎ ((any : List ℕ) × (length any ≤ length bytes.now) × Does (Append (Self.File.number file.now) any) (history self.old) (history self.new))) };

    /// Makes the bytes of a file firm.
    fn sync_file(&mut self, file: &Self::File) -> Result<(), CallError>
        ensures ok { OnOk result (Does (SyncFile (Self.File.number file.now)) (history self.old) (history self.new)) }
        ensures err { OnErr result ((history self.new ≡ history self.old) ⊎ Does (FailSync (Self.File.number file.now)) (history self.old) (history self.new)) };

    /// Makes the names in a folder firm.
    fn sync_folder(&mut self, path: &Path) -> Result<(), CallError>
        ensures ok { OnOk result (Does (SyncFolder path.now) (history self.old) (history self.new)) }
        ensures err { OnErr result ((history self.new ≡ history self.old) ⊎ Does (SyncFolder path.now) (history self.old) (history self.new)) };

    /// Gives a file another name by one change, in place of the file that had that name.
    fn rename(&mut self, from: &Path, to: &Path) -> Result<(), CallError>
        ensures ok { OnOk result (Makes (Rename from.now to.now) (history self.old) (history self.new)) }
        ensures err { OnErr result (MayMake (Rename from.now to.now) (history self.old) (history self.new)) };

    /// Takes a file's name away.
    fn remove(&mut self, path: &Path) -> Result<(), CallError>
        ensures ok { OnOk result (Makes (Remove path.now) (history self.old) (history self.new)) }
        ensures absent { IfSome (history self.old) (λ r. IsErrOf result CallError.NotFound → (names_now r).files path.now ≡ None) }
        ensures same { IsErrOf result CallError.NotFound → history self.new ≡ history self.old }
        ensures err { OnErr result (MayMake (Remove path.now) (history self.old) (history self.new)) };

    /// Notes in the record that the caller has made all names firm. It makes no call.
    fn firmed(&mut self) -> Result<(), CallError>
        ensures ok { OnOk result (Does Firmed (history self.old) (history self.new)) }
        ensures err { OnErr result (history self.new ≡ history self.old) };

    /// The calls on what stands below a folder, with a record of their own. No file there is longer than 2^62 bytes. What they are
    /// asked for is theirs alone.
    fn part(&mut self, folder: &Path) -> Result<Self, CallError>
        ensures begins { IfOk result (λ part. Begins (history self.old) (history part)) }
        ensures same { history self.new ≡ history self.old };

    /// The same, of a folder from which all is taken away first that stands below it, whatever it is. No link is followed.
    fn empty_part(&mut self, folder: &Path) -> Result<Self, CallError>
        ensures empty { IfOk result (λ part. IfSome (history part) HoldsNothing) }
        ensures same { history self.new ≡ history self.old };

    /// Gives a file of a part a name here by one change, in place of the file that had that name. The part has it no more.
    fn take(&mut self, part: &mut Self, from: &Path, to: &Path) -> Result<(), CallError>
        ensures ok { OnOk result (Takes from.now to.now (history self.old) (history part.old) (history self.new) (history part.new)) }
        ensures err { OnErr result (MayTake from.now to.now (history self.old) (history part.old) (history self.new) (history part.new)) };

    /// Where one tells, all do.
    ghost all_tell: { (one other : Self) → is_some (history one) ≡ is_some (history other) };
}
