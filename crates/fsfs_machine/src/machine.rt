//! The parts of the machine's state, its steps and their outcomes.
ghost use Rattle.std.specs.Prelude.{◌≡◌};
ghost use Rattle.fsfs_machine.specs.Machine.{entry_of};

use crate::contents::{Bytes, Contents};
use fsfs_base::{DiskPlace, FsPath, Pairs, RevNum};
use fsfs_model::{Edit, Mark};
use fsfs_tree::{Revision, Tree};
use std::marker::Model;

/// A revision of the history, and the bytes beside it: those of its revision file.
pub struct Recorded {
    pub revision: Revision,
    pub bytes: Bytes,
}

impl Drop for Recorded {
    fn drop(self) {
        let Recorded {
            revision: _revision,
            bytes: _bytes,
        } = self;
    }
}

impl Recorded {
    /// The revision, and its bytes.
    pub fn parts(self) -> (Revision, Bytes)
        ensures { result ≡ record { 0 = self.revision; 1 = self.bytes } }
    {
        let Recorded { revision, bytes } = self;
        (revision, bytes)
    }
}

/// The marks of a transaction, in the order of its accepted edits.
#[derive(Drop)]
pub struct Marks {
    pub marks: Vec<Mark>,
}

impl Model for Marks {
    ghost use Rattle.std.specs.Prelude.{List};
    ghost use Rattle.fsfs_model.specs.declared.flat.mark.Mark.{Mark};

    ghost Value = { List Mark };

    ghost view = { λ a. a.marks.items };
}

/// A transaction: its name, the revision that it stands on, its tree and marks, and how often it was merged.
pub struct Txn {
    pub name: u128,
    pub base: RevNum,
    pub tree: Tree,
    pub marks: Marks,
    pub landings: u64,
}

impl Drop for Txn {
    fn drop(self) {
        let Txn {
            name: _,
            base: _,
            tree: _tree,
            marks: _marks,
            landings: _,
        } = self;
    }
}

impl Txn {
    /// The entry of the transaction, as this pass commits it with these properties.
    pub fn entry(self, pass: u64, properties: Pairs) -> Entry
        ensures { result ≡ entry_of pass self properties }
    {
        let Txn {
            name: _,
            base,
            tree,
            marks,
            landings: _,
        } = self;
        Entry {
            pass,
            base,
            tree,
            marks,
            properties,
        }
    }
}

/// A transaction as it is committed, with its properties and the number of the pass that commits it.
#[derive(Drop)]
pub struct Entry {
    pub pass: u64,
    pub base: RevNum,
    pub tree: Tree,
    pub marks: Marks,
    pub properties: Pairs,
}

impl Model for Entry {
    ghost use Rattle.fsfs_model.specs.Flat.Transactions.{Entry};
    ghost use Rattle.fsfs_machine.specs.Codes.{coded_entry};

    ghost Value = { Entry };

    ghost coded = { coded_entry };

    ghost view = { λ a. record { pass = a.pass; base = a.base; tree = a.tree; marks = a.marks; properties = a.properties } };
}

/// A name on its way to be given, the number that comes after it, and the base of the transaction.
#[derive(Drop)]
pub struct Drawn {
    pub name: u128,
    pub next: u128,
    pub base: RevNum,
}

/// The revision that a section is about to add, the entry that it lands, and its bytes.
pub struct Coming {
    pub entry: Entry,
    pub revision: Revision,
    pub bytes: Bytes,
}

impl Drop for Coming {
    fn drop(self) {
        let Coming {
            entry: _entry,
            revision: _revision,
            bytes: _bytes,
        } = self;
    }
}

impl Coming {
    /// The entry, the revision that it lands, and the revision's bytes.
    pub fn parts(self) -> (Entry, Revision, Bytes)
        ensures { result ≡ record { 0 = self.entry; 1 = self.revision; 2 = self.bytes } }
    {
        let Coming {
            entry,
            revision,
            bytes,
        } = self;
        (entry, revision, bytes)
    }
}

/// How far the holder of the lock has come: each is named after the last call that was done.
#[derive(Drop)]
pub enum Section {
    Begun,
    CountRead(Drawn),
    CountPut(Drawn),
    CountRenamed(Drawn),
    RevPut(Coming),
    PropsPut(Coming),
    RevFirm(Coming),
    CurrentPut(Coming),
    CurrentRenamed(Coming),
    /// `current` names the revision in each image, and it isn't revealed yet.
    CurrentFirm(Coming),
    /// A fault at `RenameCurrent` or `FirmCurrent`: the lock is to be stuck at that place.
    Doubtful(DiskPlace, Coming),
    /// A shard's pack has its name.
    PackPut,
    /// And so has the manifest beside it.
    ManifestPut,
    /// Both names are firm.
    PackFirm,
    /// The new floor is put under its other name.
    FloorPut,
    /// It is the floor, though that may not last.
    FloorRenamed,
    /// The shard is packed: its revisions' own files may be removed, and the next shard be packed.
    Packed,
    /// A fault at `RenameFloor` or `FirmFloor`: the lock is to be stuck at that place.
    FloorDoubtful(DiskPlace),
    /// Only the lock is left to be given.
    Over,
}

/// The write lock, and whether the object is open at all.
#[derive(Drop)]
pub enum Lock {
    Free,
    Held(u64, Section),
    Stuck(DiskPlace, Coming),
    /// Closed, or after a crash.
    Down,
    /// The same, where the last section may have renamed `current`.
    DownDoubtful(Coming),
    /// Stuck after a fault at `RenameFloor` or `FirmFloor`: no revision is in doubt.
    StuckFloor(DiskPlace),
    /// Closed, or after a crash, where the last section may have renamed `min-unpacked-rev`.
    DownFloor,
}

/// Places of faults.
#[derive(Drop)]
pub struct Places {
    pub places: Vec<DiskPlace>,
}

impl Model for Places {
    ghost use Rattle.std.specs.Prelude.{List};
    ghost use Rattle.fsfs_base.specs.declared.places.place.DiskPlace.{DiskPlace};

    ghost Value = { List DiskPlace };

    ghost view = { λ a. a.places.items };
}

/// Numbers of revisions.
#[derive(Drop)]
pub struct Numbers {
    pub numbers: Vec<u64>,
}

impl Model for Numbers {
    ghost use Rattle.std.specs.Prelude.{List, ℕ};

    ghost Value = { List ℕ };

    ghost view = { λ a. a.numbers.items };
}

/// Numbers of the names of transactions.
#[derive(Drop)]
pub struct Names {
    pub names: Vec<u128>,
}

impl Model for Names {
    ghost use Rattle.std.specs.Prelude.{List, ℕ};

    ghost Value = { List ℕ };

    ghost view = { λ a. a.names.items };
}

/// What one pass knows. Its number is its place among the passes.
#[derive(Drop)]
pub struct Pass {
    /// How many revisions it has seen: the first of the history.
    pub seen: u64,
    /// The greatest youngest number that it was told.
    pub least: u64,
    /// Its own revisions: those since the opening whose entry carries its number.
    pub mine: Numbers,
    /// The greatest `min-unpacked-rev` that it has read.
    pub floor: u128,
    /// The places of its failed turns, in order.
    pub faults: Places,
    /// Where it found the lock stuck.
    pub stuck: Option<DiskPlace>,
}

/// How a disk call went. A failed one leaves the state from before, or that of success, or (a put) any contents.
#[derive(Drop)]
pub enum Went {
    Fine,
    Before,
    After,
    Torn(Contents),
}

/// A step. Passes are named by their numbers, transactions by their places among those under way.
#[derive(Drop)]
pub enum Step {
    TakeLock {
        pass: u64,
    },
    GiveLock {
        pass: u64,
    },
    StickLock {
        pass: u64,
    },
    /// `TxnRead`, the first call of a begin on this base.
    Draw {
        pass: u64,
        base: RevNum,
        went: Went,
    },
    /// `PutRev`, the first call of a commit: the bytes are those of the revision file.
    AdoptRev {
        pass: u64,
        txn: u64,
        properties: Pairs,
        bytes: Bytes,
        went: Went,
    },
    /// The call that is due at that place; a pack's first call is one of these.
    Call {
        pass: u64,
        place: DiskPlace,
        went: Went,
    },
    /// Removes the own file of a revision that is packed.
    RemoveOld {
        pass: u64,
        rev: u64,
        went: Went,
    },
    /// A call of the disk that touches no file and no label of the machine's: a folder, or the bench of a pack.
    Beside {
        pass: u64,
        place: DiskPlace,
        went: Went,
    },
    Reveal {
        pass: u64,
    },
    Look {
        pass: u64,
    },
    /// Reads a range of a revision file.
    Read {
        pass: u64,
        rev: u64,
        offset: u64,
        length: u64,
        went: Went,
    },
    /// Reads the property file of a revision.
    ReadProps {
        pass: u64,
        rev: u64,
        went: Went,
    },
    /// Reads `min-unpacked-rev`.
    ReadFloor {
        pass: u64,
        went: Went,
    },
    Split {
        pass: u64,
    },
    /// The first pass takes over what the second knows.
    Join {
        pass: u64,
        other: u64,
    },
    Edit {
        txn: u64,
        edit: Edit,
    },
    /// Lands the transaction on this revision.
    Merge {
        txn: u64,
        head: RevNum,
    },
    /// `MakeBench`, a begin's last call, of one of the names that are given and have no bench yet.
    MakeBench {
        pass: u64,
        name: u64,
        went: Went,
    },
    /// Lists the names of transactions that have a label.
    ListTxns {
        pass: u64,
        went: Went,
    },
    /// Purges a transaction under way: its label is dropped.
    Purge {
        pass: u64,
        txn: u64,
        went: Went,
    },
    /// Drops the label of a transaction that is no more: a commit used it up, or its bench could not be made.
    PurgeSpent {
        pass: u64,
        spent: u64,
        went: Went,
    },
    /// Lists the labels while no object has the disk.
    ListLabels {
        went: Went,
    },
    /// Drops the label of the transaction with that name while no object has the disk.
    DropLabel {
        name: u128,
        went: Went,
    },
    Close,
    /// The pending changes that are picked come through, the newest first, and the labels that are picked.
    Crash {
        picks: Picks,
        labels: Picks,
    },
    Open {
        went: Went,
    },
}

/// Which pending changes, or labels, come through.
#[derive(Drop)]
pub struct Picks {
    pub picks: Vec<bool>,
}

impl Model for Picks {
    ghost use Rattle.std.specs.Prelude.{List, Bool};

    ghost Value = { List Bool };

    ghost view = { λ a. a.picks.items };
}

/// What a step read or answered.
#[derive(Drop)]
pub enum Outcome {
    /// The step isn't allowed in this state: nothing changed.
    Barred,
    Done,
    /// The disk call failed.
    Failed,
    /// The lock is stuck at this place.
    Stuck(DiskPlace),
    /// The number of the youngest revision.
    Youngest(u64),
    /// The bytes that were read.
    Bytes(Bytes),
    /// The properties that a property file shows.
    Properties(Pairs),
    /// The number that `min-unpacked-rev` shows.
    Floor(u128),
    /// The names of the transactions that have a label.
    Names(Names),
    /// No such file, or another than was asked for.
    Missing,
    /// The merge would clash here first: the transaction is as before.
    Conflict(FsPath),
}
