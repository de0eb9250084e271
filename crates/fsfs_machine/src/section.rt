//! How far a section has come.
ghost use Rattle.std.specs.Prelude.{◌≡◌, ◌+◌, ℕ};
ghost use Rattle.fsfs_machine.specs.Machine.{either, is_due, is_quiet, is_up, is_outside, after, spoiled, down, answer};

use crate::files::is_fine;
use crate::machine::{Drawn, Lock, Outcome, Section, Went};
use fsfs_base::{BeginPlace, CommitPlace, DiskPlace, PackPlace, RevNum};

/// Whether the lock may be given here.
pub fn is_quiet_section(section: &Section) -> bool
    ensures { result ≡ is_quiet section.now }
{
    !matches!(
        section,
        Section::CurrentRenamed(_)
            | Section::CurrentFirm(_)
            | Section::Doubtful(_, _)
            | Section::FloorRenamed
            | Section::FloorDoubtful(_)
    )
}

/// Whether the call at this place comes next.
pub fn is_due_at(section: &Section, place: DiskPlace) -> bool
    ensures { result ≡ is_due section.now place }
{
    match section {
        Section::CountRead(_) => matches!(place, DiskPlace::Begin(BeginPlace::Put)),
        Section::CountPut(_) => matches!(place, DiskPlace::Begin(BeginPlace::Rename)),
        Section::CountRenamed(_) => matches!(place, DiskPlace::Begin(BeginPlace::Firm)),
        Section::RevPut(_) => matches!(place, DiskPlace::Commit(CommitPlace::PutProps)),
        Section::PropsPut(_) => matches!(place, DiskPlace::Commit(CommitPlace::FirmRev)),
        Section::RevFirm(_) => matches!(place, DiskPlace::Commit(CommitPlace::PutCurrent)),
        Section::CurrentPut(_) => matches!(place, DiskPlace::Commit(CommitPlace::RenameCurrent)),
        Section::CurrentRenamed(_) => matches!(place, DiskPlace::Commit(CommitPlace::FirmCurrent)),
        Section::Begun | Section::Packed => {
            matches!(place, DiskPlace::Pack(PackPlace::AdoptPack))
        }
        Section::PackPut => matches!(place, DiskPlace::Pack(PackPlace::AdoptManifest)),
        Section::ManifestPut => matches!(place, DiskPlace::Pack(PackPlace::FirmPack)),
        Section::PackFirm => matches!(place, DiskPlace::Pack(PackPlace::PutFloor)),
        Section::FloorPut => matches!(place, DiskPlace::Pack(PackPlace::RenameFloor)),
        Section::FloorRenamed => matches!(place, DiskPlace::Pack(PackPlace::FirmFloor)),
        _ => false,
    }
}

fn section_after(section: Section) -> Section
    ensures { result ≡ after section }
{
    match section {
        Section::CountRead(x) => Section::CountPut(x),
        Section::CountPut(x) => Section::CountRenamed(x),
        Section::RevPut(x) => Section::PropsPut(x),
        Section::PropsPut(x) => Section::RevFirm(x),
        Section::RevFirm(x) => Section::CurrentPut(x),
        Section::CurrentPut(x) => Section::CurrentRenamed(x),
        Section::CurrentRenamed(x) => Section::CurrentFirm(x),
        Section::Begun | Section::Packed => Section::PackPut,
        Section::PackPut => Section::ManifestPut,
        Section::ManifestPut => Section::PackFirm,
        Section::PackFirm => Section::FloorPut,
        Section::FloorPut => Section::FloorRenamed,
        Section::FloorRenamed => Section::Packed,
        _ => Section::Over,
    }
}

fn section_spoiled(section: Section) -> Section
    ensures { result ≡ spoiled section }
{
    match section {
        Section::CurrentPut(x) => {
            Section::Doubtful(DiskPlace::Commit(CommitPlace::RenameCurrent), x)
        }
        Section::CurrentRenamed(x) => {
            Section::Doubtful(DiskPlace::Commit(CommitPlace::FirmCurrent), x)
        }
        Section::FloorPut => Section::FloorDoubtful(DiskPlace::Pack(PackPlace::RenameFloor)),
        Section::FloorRenamed => Section::FloorDoubtful(DiskPlace::Pack(PackPlace::FirmFloor)),
        _ => Section::Over,
    }
}

/// Where the section is after the call that was due.
pub fn next_section(section: Section, went: &Went) -> Section
    ensures { result ≡ either went.now (after section) (spoiled section) }
{
    if is_fine(went) {
        section_after(section)
    } else {
        section_spoiled(section)
    }
}

/// Where the section is after the counter was read.
pub fn drawn_section(name: u128, next: u128, base: RevNum, went: &Went) -> Section
    ensures { result ≡ either went.now (Section.CountRead (record { name = name; next = next; base = base })) Section.Over }
{
    if is_fine(went) {
        Section::CountRead(Drawn { name, next, base })
    } else {
        Section::Over
    }
}

/// Whether the object is open.
pub fn is_lock_up(lock: &Lock) -> bool
    ensures { result ≡ is_up lock.now }
{
    !matches!(lock, Lock::Down | Lock::DownDoubtful(_) | Lock::DownFloor)
}

/// Whether the pass is in no section.
pub fn is_outside_section(p: u64, lock: &Lock) -> bool
    ensures { result ≡ is_outside p lock.now }
{
    !matches!(lock, Lock::Held(q, _) if *q == p)
}

/// The lock of an object that is no more.
pub fn lock_down(lock: Lock) -> Lock
    ensures { result ≡ down lock }
{
    match lock {
        Lock::Stuck(_, coming) => Lock::DownDoubtful(coming),
        Lock::DownDoubtful(coming) => Lock::DownDoubtful(coming),
        Lock::Held(_, section) => section_down(section),
        Lock::StuckFloor(_) | Lock::DownFloor => Lock::DownFloor,
        Lock::Free | Lock::Down => Lock::Down,
    }
}

fn section_down(section: Section) -> Lock
    ensures { (p : ℕ) → result ≡ down (Lock.Held p section) }
{
    match section {
        Section::CurrentRenamed(coming) => Lock::DownDoubtful(coming),
        Section::CurrentFirm(coming) => Lock::DownDoubtful(coming),
        Section::Doubtful(_, coming) => Lock::DownDoubtful(coming),
        Section::FloorRenamed | Section::FloorDoubtful(_) => Lock::DownFloor,
        _ => Lock::Down,
    }
}

/// What a call of the disk answers.
pub fn answer_of(went: &Went) -> Outcome
    ensures { result ≡ answer went.now }
{
    if is_fine(went) {
        Outcome::Done
    } else {
        Outcome::Failed
    }
}
