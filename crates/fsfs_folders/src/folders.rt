// The files of a repository, over the calls of the system.
ghost use Rattle.std.specs.Prelude.{◌≡◌, ◌⊎◌, ◌≤◌, ◌^◌, ℕ, List, [], Some, None, true, false, codes, length, is_some, option_map, IfOk, IfSome, IsErr, MatchOption, OnOk, OnErr};
ghost use Rattle.std.specs.FinMap.{empty};
ghost use Rattle.fsfs_disk.specs.Labels.{label_of, has_label, IsListing};
ghost use Rattle.fsfs_disk.specs.Benches.{IsFirmFile};
ghost use Rattle.fsfs_disk.specs.Trace.{Put, Rename, Remove, FirmNames, KeepLabel, DropLabel, labels_now, Performs, PerformsIfThere, FailsAt, IsRead, IsThere, IsSize, file_at};
ghost use Rattle.fsfs_folders.specs.System.Paths.{has_path, folder_of};
ghost use Rattle.fsfs_folders.specs.System.Listing.{is_entry as entry, IsListOf};
ghost use Rattle.fsfs_folders.specs.System.CallRecord.{names_now};
ghost use Rattle.fsfs_folders.specs.Told.{is_apart as apart, LeavesImages};
ghost use Rattle.fsfs_folders.specs.Keeping.{are_rooted, are_names_firm, is_sound};
ghost use Rattle.fsfs_folders.specs.LabelsLeft.{KeepsDropsFirm};
ghost use Rattle.fsfs_folders.specs.OpenFiles.{is_file_of, is_still};
ghost use Rattle.fsfs_folders.specs.Quiet.{IsQuiet};
ghost use Rattle.fsfs_folders.specs.Standing.{told, IsNoted, IsWritten, IsWholeAt, bytes_under, Adopts, FailsToTake};
ghost use Rattle.fsfs_folders.specs.LabelPaths.{bench_folder};
ghost use Rattle.fsfs_folders.specs.BenchFiles.{bench_told, firm_held, file_held, AreShort, AreKept, HoldsNothing};
ghost use Rattle.fsfs_folders.specs.Prototypes.{whole_told};

use crate::benches::bench::{FolderBench, Proto};
use crate::benches::bench_files::remove_all;
use crate::benches::label_paths::{bench_path, proto_entry};
use crate::benches::part::BenchPart;
use crate::listing::txns_among;
use crate::noted::Noted;
use crate::opened::Opened;
use crate::reading::{file_size, fill, open_file, read_file};
use crate::texts::{BESIDE, is_apart, is_in_bench, is_inner_folder};
use crate::writing::{sync_folders, write_new};
use crate::{CallError, Calls, Mode, Modes, Path};
use fsfs_base::Name;
use fsfs_disk::Label;
use fsfs_layout::{OnlyFile, TxnFile};
use std::alloc::Global;

// A file that is to take another's place has that one's name with this ending.
const NEXT: &str = "-next";

// No file grows longer than this.
pub const LONGEST: usize = 1 << 62;

/// The files of a repository below a folder, over the calls of the system. A file is written beside its name, made firm and then
/// renamed, so no file that has a name is ever written. It tells the operations that its calls come to.
#[derive(Drop)]
pub struct Folders<C: Calls + Drop> {
    calls: C,
    // The folders whose names may not be firm.
    changed: Noted,
    // The folders themselves have firm names.
    is_settled: bool,
    // What new files and folders get.
    modes: Modes,
    ghost sound: { is_sound (C.Calls.history calls) changed is_settled ≡ true },
}

impl<C: Calls + Drop> Folders<C> {
    /// Over calls that begin, in a folder where each file has its folders.
    pub fn new(alloc: Global, calls: C) -> Folders<C>
        requires { IfSome (C.history calls) (λ r. (r.calls ≡ []) × (are_rooted r.first.folders r.first.files ≡ true)) }
        ensures { told (C.history result.calls) ≡ told (C.history calls) }
    {
        Folders {
            calls,
            changed: Noted::new(alloc),
            is_settled: true,
            modes: Modes::unknown(),
        }
    }

    /// The calls that they stand on.
    pub fn calls(&self) -> &C
        ensures { result.now ≡ self.now.calls }
    {
        &self.calls
    }

    /// Takes the lock of a folder that is there, and holds it until `unlock`. `Locked`: another process holds it.
    pub fn lock_folder(&mut self, path: &Path) -> Result<(), CallError>
        ensures { C.history self.new.calls ≡ C.history self.old.calls }
    {
        self.calls.lock_folder(path)
    }

    /// Takes the lock of a file, and holds it until `unlock`. Where there is none an empty one is made for it, with this mode.
    pub fn lock_file(&mut self, name: &Name, mode: Option<Mode>) -> Result<(), CallError>
        ensures { C.history self.new.calls ≡ C.history self.old.calls }
    {
        self.calls.lock_file(&Path::of(name), mode)
    }

    /// The mode of the file or folder with a name. `None`: there is none.
    pub fn mode(&mut self, name: &Name) -> Result<Option<Mode>, CallError>
        ensures { C.history self.new.calls ≡ C.history self.old.calls }
    {
        self.calls.mode(&Path::of(name))
    }

    /// Lets what is new from now on get these modes.
    pub fn set_modes(&mut self, modes: Modes)
        ensures { C.history self.new.calls ≡ C.history self.old.calls }
    {
        self.modes = modes;
    }

    /// Lets all locks go that were taken.
    pub fn unlock(&mut self)
        ensures { C.history self.new.calls ≡ C.history self.old.calls }
    {
        self.calls.unlock();
    }

    /// Notes a folder whose names may not be firm, whoever changed them: the next `firm_names` syncs it, and so does a new name.
    pub fn doubt(&mut self, folder: Path) -> Result<(), CallError>
        ensures same { self.new.calls ≡ self.old.calls }
        ensures noted { OnOk result (has_path self.new.changed folder ≡ true) }
        ensures unsettled { self.new.is_settled ≡ false }
    {
        self.is_settled = false;
        match self.changed.add(folder) {
            Ok(()) => Ok(()),
            Err(_) => Err(CallError::Memory),
        }
    }

    /// Whatever a crash may leave now of names and of bytes shows one of the images that the disk tells.
    pub fn leaves_images(&self)
        ensures { IfSome (C.history self.now.calls) LeavesImages }
    {}

    // Makes the names in all folders firm in which any may not be.
    fn sync_changed(&mut self) -> Result<(), CallError>
        ensures quiet { IsQuiet (C.history self.old.calls) (C.history self.new.calls) }
        ensures firm { OnOk result (IfSome (C.history self.new.calls) (λ r. are_names_firm [] r.calls ≡ true)) }
        ensures settled { OnOk result (self.new.is_settled ≡ true) }
    {
        sync_folders(&mut self.calls, self.changed.paths())?;
        self.changed.clear();
        self.is_settled = true;
        Ok(())
    }

    // Makes the names of the folders firm, where they may not be.
    fn settle(&mut self) -> Result<(), CallError>
        ensures quiet { IsQuiet (C.history self.old.calls) (C.history self.new.calls) }
        ensures settled { OnOk result (self.new.is_settled ≡ true) }
    {
        if self.is_settled {
            return Ok(());
        }
        self.sync_changed()
    }

    // Notes that names of a folder change.
    fn note(&mut self, path: &Path) -> Result<(), CallError>
        ensures same { self.new.calls ≡ self.old.calls }
        ensures settled { self.new.is_settled ≡ self.old.is_settled }
        ensures noted { OnOk result (IsNoted self.old.changed self.new.changed path.now) }
    {
        match self.changed.add(path.folder()) {
            Ok(()) => Ok(()),
            Err(_) => Err(CallError::Memory),
        }
    }

    // Takes away what an earlier call left beside.
    fn clear(&mut self, beside: &Path) -> Result<(), CallError>
        requires beside { apart beside.now ≡ true }
        requires noted { has_path self.old.changed (folder_of beside.now) ≡ true }
        ensures told { told (C.history self.new.calls) ≡ told (C.history self.old.calls) }
        ensures changed { self.new.changed ≡ self.old.changed }
        ensures settled { self.new.is_settled ≡ self.old.is_settled }
    {
        match self.calls.remove(beside) {
            Ok(()) => Ok(()),
            Err(CallError::NotFound) => Ok(()),
            Err(error) => Err(error),
        }
    }

    // The mode of a file that is to get a name: that of the file that has it, or had it last by another name; else what is new gets.
    fn mode_for(&mut self, path: &Path) -> Result<Option<Mode>, CallError>
        ensures { C.history self.new.calls ≡ C.history self.old.calls }
    {
        let kept = match path.as_str().strip_suffix(NEXT) {
            Some(final_name) => self.calls.mode(&Path::new(final_name))?,
            None => self.calls.mode(path)?,
        };
        Ok(kept.or(self.modes.of_file(path.as_str())))
    }

    // Makes a new file of these bytes beside, firm.
    fn write(&mut self, beside: &Path, bytes: &[u8], mode: Option<Mode>) -> Result<(), CallError>
        requires beside { apart beside.now ≡ true }
        requires noted { has_path self.old.changed (folder_of beside.now) ≡ true }
        ensures told { told (C.history self.new.calls) ≡ told (C.history self.old.calls) }
        ensures changed { self.new.changed ≡ self.old.changed }
        ensures settled { self.new.is_settled ≡ self.old.is_settled }
        ensures written { OnOk result (IfSome (C.history self.new.calls) (λ r. IsWritten r beside.now bytes.now)) }
    {
        write_new(&mut self.calls, beside, bytes, mode)
    }

    // Gives what was written beside its name.
    fn give(&mut self, beside: &Path, path: &Path) -> Result<(), CallError>
        requires beside { apart beside.now ≡ true }
        requires plain { apart path.now ≡ false }
        requires from { has_path self.old.changed (folder_of beside.now) ≡ true }
        requires to { has_path self.old.changed (folder_of path.now) ≡ true }
        requires settled { self.old.is_settled ≡ true }
        requires written { IfSome (C.history self.old.calls) (λ r. IsWholeAt r beside.now) }
        ensures ok { OnOk result (Performs (Put path.now (bytes_under (C.history self.old.calls) beside.now)) (told (C.history self.old.calls)) (told (C.history self.new.calls))) }
        ensures err { OnErr result ((told (C.history self.new.calls) ≡ told (C.history self.old.calls)) ⊎ Performs (Put path.now (bytes_under (C.history self.old.calls) beside.now)) (told (C.history self.old.calls)) (told (C.history self.new.calls))) }
    {
        self.calls.rename(beside, path)
    }

    /// Puts a new file of these bytes, firm, and gives it the name, also where the name is in use.
    pub fn put(&mut self, name: &Name, bytes: &[u8]) -> Result<(), CallError>
        ensures ok { OnOk result (Performs (Put name.now bytes.now) (told (C.history self.old.calls)) (told (C.history self.new.calls))) }
        ensures err { OnErr result ((told (C.history self.new.calls) ≡ told (C.history self.old.calls)) ⊎ Performs (Put name.now bytes.now) (told (C.history self.old.calls)) (told (C.history self.new.calls))) }
    {
        if is_apart(name) {
            return Err(CallError::OtherKind);
        }
        if LONGEST < bytes.len() {
            return Err(CallError::Failed);
        }
        let beside = Path::with_ending(name, BESIDE);
        let path = Path::of(name);
        let mode = self.mode_for(&path)?;
        self.settle()?;
        self.note(&beside)?;
        self.note(&path)?;
        self.clear(&beside)?;
        self.write(&beside, bytes, mode)?;
        self.give(&beside, &path)
    }

    /// Makes the names in a folder firm now.
    pub fn firm_folder(&mut self, folder: Path) -> Result<(), CallError>
        ensures quiet { IsQuiet (C.history self.old.calls) (C.history self.new.calls) }
        ensures told { told (C.history self.new.calls) ≡ told (C.history self.old.calls) }
    {
        sync_folders(&mut self.calls, &[folder])
    }

    /// Puts an empty file, firm, under a name that is none of the repository's.
    pub fn mark(&mut self, name: &Name) -> Result<(), CallError>
        ensures { told (C.history self.new.calls) ≡ told (C.history self.old.calls) }
    {
        if !is_apart(name) {
            return Err(CallError::OtherKind);
        }
        let path = Path::of(name);
        self.note(&path)?;
        self.clear(&path)?;
        self.write(&path, b"", None)?;
        self.firm_folder(path.folder())
    }

    /// Takes such a file away, if it is there.
    pub fn unmark(&mut self, name: &Name) -> Result<(), CallError>
        ensures { told (C.history self.new.calls) ≡ told (C.history self.old.calls) }
    {
        if !is_apart(name) {
            return Err(CallError::OtherKind);
        }
        let path = Path::of(name);
        self.note(&path)?;
        self.clear(&path)
    }

    /// Gives a file another name, by one change, in place of the file that had that name.
    pub fn rename(&mut self, from: &Name, to: &Name) -> Result<(), CallError>
        ensures ok { OnOk result (Performs (Rename from.now to.now) (told (C.history self.old.calls)) (told (C.history self.new.calls))) }
        ensures err { OnErr result ((told (C.history self.new.calls) ≡ told (C.history self.old.calls)) ⊎ Performs (Rename from.now to.now) (told (C.history self.old.calls)) (told (C.history self.new.calls))) }
    {
        if is_apart(from) || is_apart(to) {
            return Err(CallError::OtherKind);
        }
        let (from, to) = (Path::of(from), Path::of(to));
        self.settle()?;
        self.note(&from)?;
        self.note(&to)?;
        self.calls.rename(&from, &to)
    }

    /// Takes a name away. `false`: there is no such file.
    pub fn remove(&mut self, name: &Name) -> Result<bool, CallError>
        ensures there { IfOk result (λ there. IfSome (told (C.history self.old.calls)) (λ t. IsThere (file_at t name.now) there)) }
        ensures ok { IfOk result (λ there. PerformsIfThere there (Remove name.now) (told (C.history self.old.calls)) (told (C.history self.new.calls))) }
        ensures err { OnErr result ((told (C.history self.new.calls) ≡ told (C.history self.old.calls)) ⊎ Performs (Remove name.now) (told (C.history self.old.calls)) (told (C.history self.new.calls))) }
    {
        if is_apart(name) {
            return Ok(false);
        }
        let path = Path::of(name);
        self.note(&path)?;
        match self.calls.remove(&path) {
            Ok(()) => Ok(true),
            Err(CallError::NotFound) => Ok(false),
            Err(error) => Err(error),
        }
    }

    /// Makes all changes of names firm.
    pub fn firm_names(&mut self) -> Result<(), CallError>
        ensures ok { OnOk result (Performs FirmNames (told (C.history self.old.calls)) (told (C.history self.new.calls))) }
        ensures err { OnErr result (told (C.history self.new.calls) ≡ told (C.history self.old.calls)) }
    {
        self.sync_changed()?;
        self.calls.firmed()
    }

    // Makes one folder in a folder that is there, also where it is there itself.
    fn make_one(&mut self, path: &Path) -> Result<(), CallError>
        ensures told { told (C.history self.new.calls) ≡ told (C.history self.old.calls) }
    {
        if is_in_bench(path.as_str()) {
            return Err(CallError::OtherKind);
        }
        self.note(path)?;
        self.is_settled = false;
        let mode = self.modes.of_folder(path.as_str());
        self.calls.make_folder(path, mode)
    }

    // Makes one that another is to stand in. Where it is there nothing changes, so it isn't noted.
    fn make_above(&mut self, path: &Path) -> Result<(), CallError>
        ensures told { told (C.history self.new.calls) ≡ told (C.history self.old.calls) }
    {
        if self.calls.is_folder(path)? {
            return Ok(());
        }
        self.make_one(path)
    }

    /// Makes a folder and those above it, also where they are there. None is made where benches stand.
    pub fn make_folder(&mut self, name: &Name) -> Result<(), CallError>
        ensures { told (C.history self.new.calls) ≡ told (C.history self.old.calls) }
    {
        let text = name.as_str();
        for at in 0..text.len() {
            if text.as_bytes()[at] == b'/'
                && let Some(above) = text.get(..at)
            {
                self.make_above(&Path::new(above))?;
            }
        }
        self.make_one(&Path::of(name))
    }

    /// Drops a folder in which nothing stands. None is dropped where benches stand.
    pub fn drop_folder(&mut self, name: &Name) -> Result<(), CallError>
        ensures { told (C.history self.new.calls) ≡ told (C.history self.old.calls) }
    {
        if !is_inner_folder(name) {
            return Err(CallError::OtherKind);
        }
        let path = Path::of(name);
        self.sync_changed()?;
        self.note(&path)?;
        self.is_settled = false;
        self.calls.drop_folder(&path)
    }

    /// Makes the folder of a label's bench, also where it is there.
    pub fn keep_label(&mut self, label: &Label) -> Result<(), CallError>
        ensures ok { OnOk result (Performs (KeepLabel (label_of label.now)) (told (C.history self.old.calls)) (told (C.history self.new.calls))) }
        ensures err { OnErr result ((told (C.history self.new.calls) ≡ told (C.history self.old.calls)) ⊎ Performs (KeepLabel (label_of label.now)) (told (C.history self.old.calls)) (told (C.history self.new.calls))) }
        ensures links { (p : List ℕ) → C.is_link self.new.calls p ≡ C.is_link self.old.calls p }
    {
        self.calls.make_folder(&bench_path(label), None)
    }

    // Whether the folder of a label's bench is there, itself: a link is none.
    fn has_label(&mut self, label: &Label) -> Result<bool, CallError>
        ensures there { IfSome (told (C.history self.old.calls)) (λ t. IfOk result (λ there. there ≡ has_label (label_of label.now) (labels_now t))) }
        ensures link { C.is_link self.old.calls (bench_folder (label_of label.now)) ≡ true → IfOk result (λ there. there ≡ false) }
        ensures same { C.history self.new.calls ≡ C.history self.old.calls }
    {
        self.calls.is_folder(&bench_path(label))
    }

    // Refuses a label in whose folder's place a link stands, where the folder has been made or was there.
    fn refuse_link(&mut self, label: &Label) -> Result<(), CallError>
        ensures link { C.is_link self.old.calls (bench_folder (label_of label.now)) ≡ true → IsErr result }
        ensures same { C.history self.new.calls ≡ C.history self.old.calls }
    {
        if self.has_label(label)? {
            Ok(())
        } else {
            Err(CallError::OtherKind)
        }
    }

    /// Drops the folder of a label's bench with all that stands in it, and makes that firm: else a crash could bring the label back.
    /// `false`: it isn't there.
    pub fn drop_label(&mut self, label: &Label) -> Result<bool, CallError>
        ensures there { IfOk result (λ there. IfSome (told (C.history self.old.calls)) (λ t. there ≡ has_label (label_of label.now) (labels_now t))) }
        ensures ok { IfOk result (λ there. PerformsIfThere there (DropLabel (label_of label.now)) (told (C.history self.old.calls)) (told (C.history self.new.calls))) }
        ensures err { OnErr result ((told (C.history self.new.calls) ≡ told (C.history self.old.calls)) ⊎ Performs (DropLabel (label_of label.now)) (told (C.history self.old.calls)) (told (C.history self.new.calls))) }
        ensures firm { OnOk result (KeepsDropsFirm (C.history self.old.calls) (C.history self.new.calls)) }
    {
        let path = bench_path(label);
        match self.calls.drop_tree(&path) {
            Ok(()) => {
                self.calls.sync_folder(&path.folder())?;
                Ok(true)
            }
            Err(CallError::NotFound) => Ok(false),
            Err(error) => Err(error),
        }
    }

    /// Gives a firm file of a bench a name here. The bench has it no more.
    pub fn adopt(&mut self, part: &mut C, file: &Name, to: &Name) -> Result<(), CallError>
        requires entry { entry file.now ≡ true }
        requires firm { IsFirmFile (bench_told (C.history part.old)) (firm_held (C.history part.old) file.now) file.now }
        requires short { AreShort (C.history part.old) }
        ensures ok { OnOk result (Adopts file.now to.now (C.history self.old.calls) (C.history part.old) (C.history self.new.calls) (C.history part.new)) }
        ensures err { OnErr result (FailsToTake file.now to.now (C.history self.old.calls) (C.history part.old) (C.history self.new.calls) (C.history part.new)) }
    {
        if is_apart(to) {
            return Err(CallError::OtherKind);
        }
        let path = Path::of(to);
        self.settle()?;
        self.note(&path)?;
        self.calls.take(part, &Path::of(file), &path)
    }

    // The calls on the folder of a label's bench, with nothing in it.
    fn cleared(&mut self, label: &Label) -> Result<C, CallError>
        ensures none { IfOk result (λ part. IfSome (C.history part) HoldsNothing) }
        ensures same { C.history self.new.calls ≡ C.history self.old.calls }
    {
        self.calls.empty_part(&bench_path(label))
    }

    // The calls on the folder of prototype revision files, in which none has these names.
    fn protos_without(&mut self, names: &[Name]) -> Result<C, CallError>
        ensures gone { IfOk result (λ part. (name : List ℕ) → has_path names.now name ≡ true → IfSome (C.history part) (λ r. file_held r name ≡ None)) }
        ensures short { IfOk result (λ part. AreShort (C.history part)) }
        ensures kept { IfOk result (λ part. AreKept (C.history part)) }
        ensures same { C.history self.new.calls ≡ C.history self.old.calls }
    {
        let mut part = self
            .calls
            .part(&Path::of(&OnlyFile::ProtoRevisions.name()))?;
        remove_all(&mut part, names)?;
        Ok(part)
    }

    // The prototype revision file of a transaction's bench, which is taken away if it is there, with its lock. None of other benches.
    fn proto(&mut self, label: &Label) -> Result<Option<Proto<C>>, CallError>
        ensures gone { IfOk result (λ proto. IfSome proto (λ p. IfSome (C.history p.part.calls) (λ r. file_held r p.name ≡ None))) }
        ensures same { C.history self.new.calls ≡ C.history self.old.calls }
    {
        let Label::Txn(txn) = label else {
            return Ok(None);
        };
        let name = proto_entry(txn, &TxnFile::ProtoRevision)?;
        let lock = proto_entry(txn, &TxnFile::ProtoRevisionLock)?;
        let part = self.protos_without(&[name.copy(), lock])?;
        Ok(Some(Proto::new(BenchPart::new(part, self.modes.revision), name)))
    }

    /// Makes an empty bench for a label. A link in the place of its folder is refused, and nothing is changed behind it.
    pub fn bench(&mut self, label: &Label) -> Result<FolderBench<C>, CallError>
        ensures ok { OnOk result (Performs (KeepLabel (label_of label.now)) (told (C.history self.old.calls)) (told (C.history self.new.calls))) }
        ensures err { OnErr result (FailsAt (KeepLabel (label_of label.now)) (told (C.history self.old.calls)) (told (C.history self.new.calls))) }
        ensures empty { IfOk result (λ bench. whole_told bench.proto (λ p. C.history p.part.calls) (λ p. p.name) (C.history bench.files.calls) ≡ option_map (λ _. empty) (told (C.history self.old.calls))) }
        ensures new { IfOk result (λ bench. bench.faults ≡ 0) }
        ensures link { C.is_link self.old.calls (bench_folder (label_of label.now)) ≡ true → IsErr result }
    {
        self.keep_label(label)?;
        self.refuse_link(label)?;
        let files = self.cleared(label)?;
        let proto = self.proto(label)?;
        Ok(FolderBench::new(BenchPart::new(files, None), proto))
    }

    /// Drops the bench of a label with all that is in it, a transaction's prototype revision file too, and then the label. `false`:
    /// the label isn't kept; then nothing is removed. A link in the place of its folder is no label.
    pub fn drop_bench(&mut self, label: &Label) -> Result<bool, CallError>
        ensures there { IfOk result (λ there. IfSome (told (C.history self.old.calls)) (λ t. there ≡ has_label (label_of label.now) (labels_now t))) }
        ensures ok { IfOk result (λ there. PerformsIfThere there (DropLabel (label_of label.now)) (told (C.history self.old.calls)) (told (C.history self.new.calls))) }
        ensures err { OnErr result (FailsAt (DropLabel (label_of label.now)) (told (C.history self.old.calls)) (told (C.history self.new.calls))) }
        ensures link { C.is_link self.old.calls (bench_folder (label_of label.now)) ≡ true → IfOk result (λ there. there ≡ false) }
    {
        if !self.has_label(label)? {
            return Ok(false);
        }
        match self.proto(label) {
            Ok(_) => {}
            Err(CallError::NotFound) => {}
            Err(error) => return Err(error),
        }
        self.drop_label(label)
    }

    // The folders in that of transactions; none where that isn't there, but the one above.
    fn txn_folders(&mut self, alloc: Global) -> Result<Vec<Name>, CallError>
        ensures names { IfSome (C.history self.old.calls) (λ r. IfOk result (λ found. IsListOf (names_now r).folders (codes "db/transactions") found.items)) }
        ensures same { C.history self.new.calls ≡ C.history self.old.calls }
    {
        match self.calls.folders_in(alloc, &Path::new("db/transactions")) {
            Ok(found) => Ok(found),
            Err(CallError::NotFound) => {
                let _ = self.calls.folders_in(alloc, &Path::new("db"))?;
                Ok(Vec::new(alloc))
            }
            Err(error) => Err(error),
        }
    }

    /// The names of the folders of the transactions whose labels are kept, in the order of their bytes. None where there is no folder
    /// of transactions; a failure where there is none above it either.
    pub fn txn_entries(&mut self, alloc: Global) -> Result<Vec<Name>, CallError>
        ensures names { IfSome (told (C.history self.old.calls)) (λ t. IfOk result (λ found. IsListing (labels_now t) found.items)) }
        ensures same { told (C.history self.new.calls) ≡ told (C.history self.old.calls) }
    {
        let folders = self.txn_folders(alloc)?;
        let Ok(mut found) = txns_among(alloc, folders.as_slice()) else {
            return Err(CallError::Memory);
        };
        if found.sort().is_err() {
            return Err(CallError::Memory);
        }
        Ok(found)
    }

    /// Fills the buffer from an offset on, as far as the file goes. `None`: there is no such file.
    pub fn read(
        &mut self,
        name: &Name,
        offset: u64,
        buffer: &mut [u8],
    ) -> Result<Option<usize>, CallError>
        ensures bound { IfOk result (λ found. IfSome found (λ n. n ≤ length buffer.new)) }
        ensures bytes { IfSome (told (C.history self.old.calls)) (λ t. IfOk result (IsRead (file_at t name.now) offset buffer.old buffer.new)) }
        ensures same { told (C.history self.new.calls) ≡ told (C.history self.old.calls) }
    {
        if is_apart(name) {
            return Ok(None);
        }
        read_file(&mut self.calls, &Path::of(name), offset, buffer)
    }

    /// Opens a file to read it. `None`: there is no such file.
    pub fn open(&mut self, name: &Name) -> Result<Option<Opened<C>>, CallError>
        ensures found { IfOk result (λ found. MatchOption found (IfSome (told (C.history self.old.calls)) (λ t. file_at t name.now ≡ None)) (λ opened. opened.name ≡ name.now)) }
        ensures still { IfOk result (λ found. is_still found (λ opened. opened.name) (λ opened. C.File.number opened.file) (C.history self.old.calls) ≡ true) }
        ensures same { C.history self.new.calls ≡ C.history self.old.calls }
    {
        if is_apart(name) {
            return Ok(None);
        }
        match open_file(&mut self.calls, &Path::of(name))? {
            Some(file) => Ok(Some(Opened {
                name: name.copy(),
                file,
            })),
            None => Ok(None),
        }
    }

    /// Fills the buffer from an offset on, as far as the file goes that is open and still has its name.
    pub fn read_open(
        &mut self,
        opened: &Opened<C>,
        offset: u64,
        buffer: &mut [u8],
    ) -> Result<usize, CallError>
        requires { is_file_of (C.history self.old.calls) opened.now.name (C.File.number opened.now.file) ≡ true }
        ensures bound { IfOk result (λ n. n ≤ length buffer.new) }
        ensures bytes { IfSome (told (C.history self.old.calls)) (λ t. IfOk result (λ n. IsRead (file_at t opened.now.name) offset buffer.old buffer.new (Some n))) }
        ensures same { C.history self.new.calls ≡ C.history self.old.calls }
    {
        fill(&mut self.calls, &opened.file, offset, buffer)
    }

    /// The length in bytes of a file that is open and still has its name.
    pub fn size_open(&mut self, opened: &Opened<C>) -> Result<u64, CallError>
        requires { is_file_of (C.history self.old.calls) opened.now.name (C.File.number opened.now.file) ≡ true }
        ensures length { IfSome (told (C.history self.old.calls)) (λ t. IfOk result (λ n. IsSize (file_at t opened.now.name) (Some n))) }
        ensures same { C.history self.new.calls ≡ C.history self.old.calls }
    {
        self.calls.length(&opened.file)
    }

    /// The length of a file in bytes. `None`: there is no such file.
    pub fn size(&mut self, name: &Name) -> Result<Option<u64>, CallError>
        ensures length { IfSome (told (C.history self.old.calls)) (λ t. IfOk result (IsSize (file_at t name.now))) }
        ensures same { told (C.history self.new.calls) ≡ told (C.history self.old.calls) }
    {
        if is_apart(name) {
            return Ok(None);
        }
        file_size(&mut self.calls, &Path::of(name))
    }
}
