//! The numbers by which the write lock is stuck at a place.
ghost use Rattle.std.specs.Prelude.{◌≡◌};
ghost use Rattle.fsfs_pass.specs.LockWords.{place_number, place_at, create_place_at, begin_place_at, commit_place_at, pack_place_at};

use fsfs_base::{BeginPlace, CommitPlace, CreatePlace, DiskPlace, OpenPlace, PackPlace};

/// The number of a place.
pub(crate) fn number_of_place(place: DiskPlace) -> u64
    ensures { result ≡ place_number place }
{
    match place {
        DiskPlace::Read => 2,
        DiskPlace::List => 3,
        DiskPlace::MakeBench => 4,
        DiskPlace::Remove => 5,
        DiskPlace::Open(OpenPlace::Firm) => 6,
        DiskPlace::Open(OpenPlace::Read) => 7,
        DiskPlace::Create(CreatePlace::Put) => 8,
        DiskPlace::Create(CreatePlace::Firm) => 9,
        DiskPlace::Create(CreatePlace::Rename) => 10,
        DiskPlace::Create(CreatePlace::Last) => 11,
        DiskPlace::Begin(BeginPlace::Read) => 12,
        DiskPlace::Begin(BeginPlace::Put) => 13,
        DiskPlace::Begin(BeginPlace::Rename) => 14,
        DiskPlace::Begin(BeginPlace::Firm) => 15,
        DiskPlace::Commit(CommitPlace::PutRev) => 16,
        DiskPlace::Commit(CommitPlace::PutProps) => 17,
        DiskPlace::Commit(CommitPlace::FirmRev) => 18,
        DiskPlace::Commit(CommitPlace::PutCurrent) => 19,
        DiskPlace::Commit(CommitPlace::RenameCurrent) => 20,
        DiskPlace::Commit(CommitPlace::FirmCurrent) => 21,
        DiskPlace::Pack(PackPlace::AdoptPack) => 22,
        DiskPlace::Pack(PackPlace::AdoptManifest) => 23,
        DiskPlace::Pack(PackPlace::FirmPack) => 24,
        DiskPlace::Pack(PackPlace::PutFloor) => 25,
        DiskPlace::Pack(PackPlace::RenameFloor) => 26,
        DiskPlace::Pack(PackPlace::FirmFloor) => 27,
    }
}

fn pack_place_of(number: u64) -> DiskPlace
    ensures { result ≡ pack_place_at number }
{
    let place = match number {
        22 => PackPlace::AdoptPack,
        23 => PackPlace::AdoptManifest,
        24 => PackPlace::FirmPack,
        25 => PackPlace::PutFloor,
        26 => PackPlace::RenameFloor,
        _ => PackPlace::FirmFloor,
    };
    DiskPlace::Pack(place)
}

fn commit_place_of(number: u64) -> DiskPlace
    ensures { result ≡ commit_place_at number }
{
    match number {
        16 => DiskPlace::Commit(CommitPlace::PutRev),
        17 => DiskPlace::Commit(CommitPlace::PutProps),
        18 => DiskPlace::Commit(CommitPlace::FirmRev),
        19 => DiskPlace::Commit(CommitPlace::PutCurrent),
        20 => DiskPlace::Commit(CommitPlace::RenameCurrent),
        21 => DiskPlace::Commit(CommitPlace::FirmCurrent),
        _ => pack_place_of(number),
    }
}

fn begin_place_of(number: u64) -> DiskPlace
    ensures { result ≡ begin_place_at number }
{
    match number {
        12 => DiskPlace::Begin(BeginPlace::Read),
        13 => DiskPlace::Begin(BeginPlace::Put),
        14 => DiskPlace::Begin(BeginPlace::Rename),
        15 => DiskPlace::Begin(BeginPlace::Firm),
        _ => commit_place_of(number),
    }
}

fn create_place_of(number: u64) -> DiskPlace
    ensures { result ≡ create_place_at number }
{
    match number {
        8 => DiskPlace::Create(CreatePlace::Put),
        9 => DiskPlace::Create(CreatePlace::Firm),
        10 => DiskPlace::Create(CreatePlace::Rename),
        11 => DiskPlace::Create(CreatePlace::Last),
        _ => begin_place_of(number),
    }
}

/// The place of a number.
pub(crate) fn place_of_number(number: u64) -> DiskPlace
    ensures { result ≡ place_at number }
{
    match number {
        2 => DiskPlace::Read,
        3 => DiskPlace::List,
        4 => DiskPlace::MakeBench,
        5 => DiskPlace::Remove,
        6 => DiskPlace::Open(OpenPlace::Firm),
        7 => DiskPlace::Open(OpenPlace::Read),
        _ => create_place_of(number),
    }
}
