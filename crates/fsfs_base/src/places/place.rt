//! Which call of a disk it was that failed.
ghost use Rattle.std.specs.Prelude.{◌≡◌, ◌≤◌, length};
ghost use Rattle.fsfs_base.specs.Places.{open_place_word, create_place_word, begin_place_word, commit_place_word, pack_place_word, place_word};

/// A place of an opening.
#[derive(Clone, Copy, Debug)]
pub enum OpenPlace {
    /// The names of the repository are made firm.
    Firm,
    /// A small file of it is read.
    Read,
}

impl OpenPlace {
    fn word(self) -> &'static str
        ensures text { result.now ≡ open_place_word self }
        ensures short { length result.now ≤ 16 }
    {
        match self {
            OpenPlace::Firm => "OpenFirm",
            OpenPlace::Read => "OpenRead",
        }
    }
}

/// A place of a creation, behind its look whether there is a repository.
#[derive(Clone, Copy, Debug)]
pub enum CreatePlace {
    /// A folder or a file of a new repository is made.
    Put,
    /// The names of its files are made firm.
    Firm,
    /// `db/format` gets its name, which makes the files a repository.
    Rename,
    /// That name is made firm.
    Last,
}

impl CreatePlace {
    fn word(self) -> &'static str
        ensures text { result.now ≡ create_place_word self }
        ensures short { length result.now ≤ 16 }
    {
        match self {
            CreatePlace::Put => "CreatePut",
            CreatePlace::Firm => "CreateFirm",
            CreatePlace::Rename => "CreateRename",
            CreatePlace::Last => "CreateLast",
        }
    }
}

/// A place of the section that gives a transaction its name.
#[derive(Clone, Copy, Debug)]
pub enum BeginPlace {
    /// `txn-current` is read.
    Read,
    /// The number behind it is put under another name.
    Put,
    /// That file gets its name.
    Rename,
    /// That name is made firm.
    Firm,
}

impl BeginPlace {
    fn word(self) -> &'static str
        ensures text { result.now ≡ begin_place_word self }
        ensures short { length result.now ≤ 16 }
    {
        match self {
            BeginPlace::Read => "TxnRead",
            BeginPlace::Put => "TxnPut",
            BeginPlace::Rename => "TxnRename",
            BeginPlace::Firm => "TxnFirm",
        }
    }
}

/// A place of a commit's section.
#[derive(Clone, Copy, Debug)]
pub enum CommitPlace {
    /// The revision file gets its name.
    PutRev,
    /// The property file is put.
    PutProps,
    /// The names of both are made firm.
    FirmRev,
    /// The new number is put under another name than `current`.
    PutCurrent,
    /// That file becomes `current`.
    RenameCurrent,
    /// That name is made firm.
    FirmCurrent,
}

impl CommitPlace {
    fn word(self) -> &'static str
        ensures text { result.now ≡ commit_place_word self }
        ensures short { length result.now ≤ 16 }
    {
        match self {
            CommitPlace::PutRev => "PutRev",
            CommitPlace::PutProps => "PutProps",
            CommitPlace::FirmRev => "FirmRev",
            CommitPlace::PutCurrent => "PutCurrent",
            CommitPlace::RenameCurrent => "RenameCurrent",
            CommitPlace::FirmCurrent => "FirmCurrent",
        }
    }
}

/// A place of a pack's section.
#[derive(Clone, Copy, Debug)]
pub enum PackPlace {
    /// The pack of a shard gets its name.
    AdoptPack,
    /// The manifest beside it gets its name.
    AdoptManifest,
    /// The names of both are made firm.
    FirmPack,
    /// The new floor is put under another name than `min-unpacked-rev`.
    PutFloor,
    /// That file becomes `min-unpacked-rev`.
    RenameFloor,
    /// That name is made firm.
    FirmFloor,
}

impl PackPlace {
    fn word(self) -> &'static str
        ensures text { result.now ≡ pack_place_word self }
        ensures short { length result.now ≤ 16 }
    {
        match self {
            PackPlace::AdoptPack => "AdoptPack",
            PackPlace::AdoptManifest => "AdoptManifest",
            PackPlace::FirmPack => "FirmPack",
            PackPlace::PutFloor => "PutFloor",
            PackPlace::RenameFloor => "RenameFloor",
            PackPlace::FirmFloor => "FirmFloor",
        }
    }
}

/// The place of a call of a disk: which call it was that failed.
#[derive(Clone, Copy, Debug)]
pub enum DiskPlace {
    /// The look whether there is a repository, or a reading of revisions.
    Read,
    /// The labels of transactions are listed.
    List,
    /// A transaction's bench is made, with its label.
    MakeBench,
    /// A bench is dropped, and its label.
    Remove,
    Open(OpenPlace),
    Create(CreatePlace),
    Begin(BeginPlace),
    Commit(CommitPlace),
    Pack(PackPlace),
}

impl DiskPlace {
    /// The word for it that is printed.
    pub fn word(self) -> &'static str
        ensures text { result.now ≡ place_word self }
        ensures short { length result.now ≤ 16 }
    {
        match self {
            DiskPlace::Read => "Read",
            DiskPlace::List => "List",
            DiskPlace::MakeBench => "MakeBench",
            DiskPlace::Remove => "Remove",
            DiskPlace::Open(place) => place.word(),
            DiskPlace::Create(place) => place.word(),
            DiskPlace::Begin(place) => place.word(),
            DiskPlace::Commit(place) => place.word(),
            DiskPlace::Pack(place) => place.word(),
        }
    }
}
