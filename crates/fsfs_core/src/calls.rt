//! The words, and the calls of a section.
ghost use Rattle.std.specs.Prelude.{◌≡◌, ◌+◌, ◌/◌, ◌&&◌, true, length, OnOk, IfOk, MatchOption, Some, None, if◌then◌else◌};
ghost use Rattle.std.specs.NonZero.{non_zero_u64_get};
ghost use Rattle.fsfs_machine.specs.Disk.{found};
ghost use Rattle.fsfs_machine.specs.Machine.{did, barred, answer, is_there, taken, inside, let_go, stuck_at, held_by, has_begun_by, is_up, looked, ended, at_place, learns, rename_of, due, is_due, gives, called, called_by, drawn, revealed, first_of_pack, old_removed, turned};
ghost use Rattle.fsfs_machine.specs.Kept.{packs};
ghost use Rattle.fsfs_core.specs.State.{world_of};

use crate::state::State;
use fsfs_base::{BeginPlace, DiskPlace, RevNum};
use fsfs_machine::files::{change_made, find, find_number, is_fine};
use fsfs_machine::packs::{manifest_file, pack_file};
use fsfs_machine::passes::{find_stuck, learn, reveal_by, see_least};
use fsfs_machine::section::{
    answer_of, drawn_section, is_due_at, is_lock_up, is_quiet_section, next_section,
};
use fsfs_machine::{Contents, Drawn, FileName, Lock, NameChange, Outcome, Section, Went};
use std::alloc::AllocError;
use std::mem;

// The last number that a transaction's name has digits for, and that none is given: no number comes behind it.
const LAST_NAME: u128 = 170581728179578208255;

impl State {
    // The section of the pass, taken out where it holds the lock.
    fn take_section(&mut self, p: u64) -> Option<Section>
        ensures none { result ≡ None → self.new ≡ self.old }
        ensures some { MatchOption result (held_by p self.old.lock ≡ None)
            (λ s. (held_by p self.old.lock ≡ Some s) × (world_of self.new ≡ record (world_of self.old) { lock = Lock.Free })) }
    {
        match mem::replace(&mut self.lock, Lock::Free) {
            Lock::Held(q, section) if q == p => Some(section),
            lock => {
                self.lock = lock;
                None
            }
        }
    }

    // Whether the pass has just taken the lock.
    pub(crate) fn has_begun(&self, p: u64) -> bool
        ensures { result ≡ has_begun_by p self.now.lock }
    {
        matches!(&self.lock, Lock::Held(q, Section::Begun) if *q == p)
    }

    pub(crate) fn take_lock(&mut self, p: u64) -> Outcome
        ensures { did (world_of self.new) result ≡ (if is_there (world_of self.old) p then taken (world_of self.old) p self.old.lock else barred (world_of self.old)) }
    {
        if !self.is_there(p) {
            return Outcome::Barred;
        }
        match mem::replace(&mut self.lock, Lock::Free) {
            Lock::Free => {
                self.lock = Lock::Held(p, Section::Begun);
                Outcome::Done
            }
            Lock::Stuck(place, coming) => {
                self.lock = Lock::Stuck(place, coming);
                find_stuck(&mut self.passes, p, place);
                Outcome::Stuck(place)
            }
            Lock::StuckFloor(place) => {
                self.lock = Lock::StuckFloor(place);
                find_stuck(&mut self.passes, p, place);
                Outcome::Stuck(place)
            }
            lock => {
                self.lock = lock;
                Outcome::Barred
            }
        }
    }

    pub(crate) fn give_lock(&mut self, p: u64) -> Outcome
        ensures { did (world_of self.new) result ≡ inside (world_of self.old) (let_go (world_of self.old)) (held_by p self.old.lock) }
    {
        match self.take_section(p) {
            None => Outcome::Barred,
            Some(section) => {
                if is_quiet_section(&section) {
                    Outcome::Done
                } else {
                    self.lock = Lock::Held(p, section);
                    Outcome::Barred
                }
            }
        }
    }

    pub(crate) fn stick_lock(&mut self, p: u64) -> Outcome
        ensures { did (world_of self.new) result ≡ inside (world_of self.old) (stuck_at (world_of self.old)) (held_by p self.old.lock) }
    {
        match self.take_section(p) {
            Some(Section::Doubtful(place, coming)) => {
                self.lock = Lock::Stuck(place, coming);
                Outcome::Done
            }
            Some(Section::FloorDoubtful(place)) => {
                self.lock = Lock::StuckFloor(place);
                Outcome::Done
            }
            Some(section) => {
                self.lock = Lock::Held(p, section);
                Outcome::Barred
            }
            None => Outcome::Barred,
        }
    }

    pub(crate) fn look(&mut self, p: u64) -> Outcome
        ensures { did (world_of self.new) result ≡ (if is_there (world_of self.old) p && is_up self.old.lock then looked (world_of self.old) p else barred (world_of self.old)) }
    {
        if self.is_there(p) && is_lock_up(&self.lock) {
            see_least(&mut self.passes, p, self.young);
            Outcome::Youngest(self.young)
        } else {
            Outcome::Barred
        }
    }

    pub(crate) fn reveal(&mut self, p: u64) -> Result<Outcome, AllocError>
        ensures { IfOk result (λ o. did (world_of self.new) o ≡ inside (world_of self.old) (revealed (world_of self.old) p) (held_by p self.old.lock)) }
    {
        match self.take_section(p) {
            Some(Section::CurrentFirm(coming)) => {
                let young = self.count();
                let (entry, revision, bytes) = coming.parts();
                self.line.push(revision, bytes)?;
                self.since.push(entry)?;
                self.young = young;
                let seen = self.count();
                reveal_by(&mut self.passes, p, young, seen)?;
                self.lock = Lock::Held(p, Section::Over);
                Ok(Outcome::Done)
            }
            Some(section) => {
                self.lock = Lock::Held(p, section);
                Ok(Outcome::Barred)
            }
            None => Ok(Outcome::Barred),
        }
    }

    // The change is made as far as the call went, and the pass learns.
    pub(crate) fn end_call(
        &mut self,
        p: u64,
        place: DiskPlace,
        change: NameChange,
        section: Section,
        went: Went,
    ) -> Result<(), AllocError>
        ensures { OnOk result (world_of self.new ≡ ended (world_of self.old) p place change section went) }
    {
        let seen = self.count();
        learn(&mut self.passes, p, seen, place, &went)?;
        if let Some(change) = change_made(went, change) {
            self.disk.push_front(change)?;
        }
        self.lock = Lock::Held(p, section);
        Ok(())
    }

    fn renaming(&self, from: FileName, to: FileName) -> Result<Option<NameChange>, AllocError>
        ensures { IfOk result (λ o. o ≡ rename_of from to (found self.now.disk.items from)) }
    {
        match find(&self.disk, &from) {
            Some(file) => {
                let file = file.copy(self.alloc)?;
                Ok(Some(NameChange::Rename(from, to, file)))
            }
            None => Ok(None),
        }
    }

    // The shard at the floor.
    fn shard(&self) -> u128
        ensures { result ≡ self.now.floor / non_zero_u64_get self.now.size }
    {
        self.floor / self.size.get() as u128
    }

    // The floor behind it. A number that no file has room for counts as want of memory.
    fn next_floor(&self) -> Result<u128, AllocError>
        ensures { IfOk result (λ floor. floor ≡ self.now.floor + non_zero_u64_get self.now.size) }
    {
        match self.floor.checked_add(self.size.get() as u128) {
            Some(floor) => Ok(floor),
            None => Err(AllocError),
        }
    }

    // A pack's first change, where that shard is full.
    fn first_of_pack(&self) -> Result<Option<NameChange>, AllocError>
        ensures { IfOk result (λ o. o ≡ first_of_pack (world_of self.now)) }
    {
        if self.next_floor()? <= self.count() as u128 {
            let file = pack_file(self.alloc, &self.line, self.size.get(), self.floor)?;
            Ok(Some(NameChange::Put(FileName::Pack(self.shard()), file)))
        } else {
            Ok(None)
        }
    }

    // The change of a pack's section that is due, where it is none of the names alone.
    fn pack_change(&self, section: &Section) -> Result<Option<NameChange>, AllocError>
        requires packs { packs section.now ≡ true }
        ensures { IfOk result (λ o. o ≡ due (world_of self.now) section.now) }
    {
        match section {
            Section::PackPut => {
                let file = manifest_file(self.alloc, &self.line, self.size.get(), self.floor)?;
                Ok(Some(NameChange::Put(FileName::Manifest(self.shard()), file)))
            }
            Section::PackFirm => Ok(Some(NameChange::Put(
                FileName::FloorNext,
                Contents::Number(self.next_floor()?),
            ))),
            Section::FloorPut => self.renaming(FileName::FloorNext, FileName::Floor),
            Section::ManifestPut | Section::FloorRenamed => Ok(Some(NameChange::Firm)),
            _ => Ok(None),
        }
    }

    // The change that the call makes which is due.
    fn due_change(&self, section: &Section) -> Result<Option<NameChange>, AllocError>
        ensures { IfOk result (λ o. o ≡ due (world_of self.now) section.now) }
    {
        let number = self.count();
        match section {
            Section::CountRead(x) => Ok(Some(NameChange::Put(
                FileName::CounterNext,
                Contents::Number(x.next),
            ))),
            Section::CountPut(_) => self.renaming(FileName::CounterNext, FileName::Counter),
            Section::RevPut(x) => {
                let properties = x.revision.properties.clone()?;
                Ok(Some(NameChange::Put(FileName::Props(number), Contents::PropsFile(properties))))
            }
            Section::RevFirm(_) => Ok(Some(NameChange::Put(
                FileName::CurrentNext,
                Contents::Number(number as u128),
            ))),
            Section::CurrentPut(_) => self.renaming(FileName::CurrentNext, FileName::Current),
            Section::CountRenamed(_) | Section::PropsPut(_) | Section::CurrentRenamed(_) => {
                Ok(Some(NameChange::Firm))
            }
            Section::Begun | Section::Packed => self.first_of_pack(),
            Section::PackPut
            | Section::ManifestPut
            | Section::PackFirm
            | Section::FloorPut
            | Section::FloorRenamed
            | Section::FloorDoubtful(_) => self.pack_change(section),
            Section::CurrentFirm(_) | Section::Doubtful(_, _) | Section::Over => Ok(None),
        }
    }

    // The same, where that place is the one of the call which is due.
    fn due_at(&self, section: &Section, place: DiskPlace) -> Result<Option<NameChange>, AllocError>
        ensures { IfOk result (λ o. o ≡ (if is_due section.now place then due (world_of self.now) section.now else None)) }
    {
        if is_due_at(section, place) {
            self.due_change(section)
        } else {
            Ok(None)
        }
    }

    // The name is given, or the floor raised, as the names are firm.
    fn give_name(&mut self, section: &Section, went: &Went) -> Result<(), AllocError>
        ensures { OnOk result (world_of self.new ≡ gives section.now went.now (world_of self.old)) }
    {
        if !is_fine(went) {
            return Ok(());
        }
        match section {
            Section::CountRenamed(x) => {
                self.given.push_front(x.name)?;
                self.named.push(Drawn {
                    name: x.name,
                    next: x.next,
                    base: x.base,
                })?;
            }
            Section::FloorRenamed => self.floor = self.next_floor()?,
            _ => {}
        }
        Ok(())
    }

    fn go_on(
        &mut self,
        p: u64,
        place: DiskPlace,
        section: Section,
        change: NameChange,
        went: Went,
    ) -> Result<Outcome, AllocError>
        ensures { IfOk result (λ o. did (world_of self.new) o ≡ called_by (world_of self.old) p place went section (Some change)) }
    {
        self.give_name(&section, &went)?;
        let answer = answer_of(&went);
        let next = next_section(section, &went);
        self.end_call(p, place, change, next, went)?;
        Ok(answer)
    }

    // The call at that place, where it is due.
    pub(crate) fn call(
        &mut self,
        p: u64,
        place: DiskPlace,
        went: Went,
    ) -> Result<Outcome, AllocError>
        ensures { IfOk result (λ o. did (world_of self.new) o ≡ inside (world_of self.old) (called (world_of self.old) p place went) (held_by p self.old.lock)) }
    {
        let section = match self.take_section(p) {
            Some(section) => section,
            None => return Ok(Outcome::Barred),
        };
        match self.due_at(&section, place)? {
            None => {
                self.lock = Lock::Held(p, section);
                Ok(Outcome::Barred)
            }
            Some(change) => self.go_on(p, place, section, change, went),
        }
    }

    // The own file of a revision that is packed goes.
    pub(crate) fn remove_old(&mut self, p: u64, rev: u64, went: Went) -> Result<Outcome, AllocError>
        ensures { IfOk result (λ o. did (world_of self.new) o ≡ inside (world_of self.old) (old_removed (world_of self.old) p rev went) (held_by p self.old.lock)) }
    {
        match self.take_section(p) {
            Some(Section::Packed) => {
                if rev as u128 >= self.floor {
                    self.lock = Lock::Held(p, Section::Packed);
                    return Ok(Outcome::Barred);
                }
                let answer = answer_of(&went);
                let change = NameChange::Remove(FileName::Rev(rev));
                self.end_call(p, DiskPlace::Remove, change, Section::Packed, went)?;
                Ok(answer)
            }
            Some(section) => {
                self.lock = Lock::Held(p, section);
                Ok(Outcome::Barred)
            }
            None => Ok(Outcome::Barred),
        }
    }

    // A call that touches nothing of the machine's.
    pub(crate) fn beside(
        &mut self,
        p: u64,
        place: DiskPlace,
        went: &Went,
    ) -> Result<Outcome, AllocError>
        ensures { IfOk result (λ o. did (world_of self.new) o
            ≡ (if is_there (world_of self.old) p then did (turned (world_of self.old) p place went.now) (answer went.now) else barred (world_of self.old))) }
    {
        if !self.is_there(p) {
            return Ok(Outcome::Barred);
        }
        let seen = self.count();
        learn(&mut self.passes, p, seen, place, went)?;
        Ok(answer_of(went))
    }

    fn end_read(&mut self, p: u64, section: Section, went: &Went) -> Result<(), AllocError>
        ensures { OnOk result (world_of self.new ≡ record (world_of self.old) { lock = Lock.Held p section; passes = at_place self.old.passes.items p (learns (length self.old.line) (DiskPlace.Begin BeginPlace.Read) went.now) }) }
    {
        let seen = self.count();
        learn(
            &mut self.passes,
            p,
            seen,
            DiskPlace::Begin(BeginPlace::Read),
            went,
        )?;
        self.lock = Lock::Held(p, section);
        Ok(())
    }

    // `TxnRead`.
    pub(crate) fn draw(&mut self, p: u64, base: RevNum, went: &Went) -> Result<Outcome, AllocError>
        ensures { IfOk result (λ o. did (world_of self.new) o ≡ inside (world_of self.old) (drawn (world_of self.old) p base went.now) (held_by p self.old.lock)) }
    {
        if !self.has_begun(p) {
            return Ok(Outcome::Barred);
        }
        match find_number(&self.disk, &FileName::Counter) {
            None => Ok(Outcome::Barred),
            Some(name) => {
                if (base.get() as u64) < self.count() && name < LAST_NAME {
                    self.end_read(p, drawn_section(name, name + 1, base, went), went)?;
                    Ok(answer_of(went))
                } else {
                    Ok(Outcome::Barred)
                }
            }
        }
    }
}
