//! Ends of the object, and openings.
ghost use Rattle.std.specs.Prelude.{◌≡◌, ◌+◌, ◌∷◌, IfOk, OnOk, if◌then◌else◌};
ghost use Rattle.std.specs.NonZero.{non_zero_u64_get};
ghost use Rattle.fsfs_machine.specs.Disk.{found, left, shown};
ghost use Rattle.fsfs_machine.specs.Machine.{did, barred, is_up, ends, revision_in, read_back, opened, open_at, disk_after, labels_left};
ghost use Rattle.fsfs_core.specs.State.{world_of};

use crate::state::State;
use fsfs_machine::files::{change_made, find, find_number, is_fine, what_is_left};
use fsfs_machine::labels::pick_labels;
use fsfs_machine::packs::{Shown, find_shown};
use fsfs_machine::section::{is_lock_up, lock_down};
use fsfs_machine::{
    Contents, FileName, Line, Lock, NameChange, Outcome, Pass, Picks, Recorded, Went,
};
use fsfs_tree::Revision;
use std::alloc::{AllocError, Global};
use std::collections::VecDeque;
use std::mem;

impl State {
    fn end(&mut self)
        ensures { world_of self.new ≡ ends (world_of self.old) }
    {
        let lock = mem::replace(&mut self.lock, Lock::Down);
        self.lock = lock_down(lock);
        self.opening = self.count();
        self.since.clear();
        self.named.clear();
        self.txns.clear();
        self.spent.clear();
        self.passes.clear();
    }

    pub(crate) fn close(&mut self) -> Outcome
        ensures { did (world_of self.new) result ≡ (if is_up self.old.lock then did (ends (world_of self.old)) Outcome.Done else barred (world_of self.old)) }
    {
        if is_lock_up(&self.lock) {
            self.end();
            Outcome::Done
        } else {
            Outcome::Barred
        }
    }

    pub(crate) fn crash(&mut self, picks: &Picks, labels: &Picks) -> Result<Outcome, AllocError>
        ensures { IfOk result (λ o. did (world_of self.new) o
            ≡ did (record (ends (world_of self.old)) { disk = NameChange.Firm ∷ left picks.now self.old.disk.items; labels = labels_left labels.now self.old.labels.items }) Outcome.Done) }
    {
        let kept = mem::replace(&mut self.labels, VecDeque::new(self.alloc));
        self.labels = pick_labels(self.alloc, kept, &labels.picks)?;
        let disk = mem::replace(&mut self.disk, VecDeque::new(self.alloc));
        self.disk = what_is_left(self.alloc, disk, &picks.picks)?;
        self.disk.push_front(NameChange::Firm)?;
        self.end();
        Ok(Outcome::Done)
    }

    // A revision as its two files show it by this floor.
    #[tactic(auto, using(crate::proofs::Reading::no_revision))]
    fn revision_at(&self, floor: u128, rev: u64) -> Result<Option<Recorded>, AllocError>
        ensures { IfOk result (λ o. o ≡ revision_in (shown (non_zero_u64_get self.now.size) floor self.now.disk.items rev) (found self.now.disk.items (FileName.Props rev))) }
    {
        let Some(
            Shown {
                tree,
                changes,
                bytes,
            },
        ) = find_shown(&self.disk, self.size.get(), floor, rev)
        else {
            return Ok(None);
        };
        match find(&self.disk, &FileName::Props(rev)) {
            Some(Contents::PropsFile(properties)) => Ok(Some(Recorded {
                revision: Revision {
                    tree: tree.clone()?,
                    changes: changes.clone()?,
                    properties: properties.clone()?,
                },
                bytes: bytes.copy(self.alloc)?,
            })),
            _ => Ok(None),
        }
    }

    // So many revisions, as the files show them.
    #[tactic(auto, using(crate::proofs::Reading::read_more, crate::proofs::Reading::read_none))]
    fn read_back(&self, floor: u128, count: u64) -> Result<Option<Line>, AllocError>
        ensures { IfOk result (λ o. o ≡ read_back (non_zero_u64_get self.now.size) floor self.now.disk.items count) }
    {
        let mut line = Line::new(self.alloc);
        for rev in 0..count {
            match self.revision_at(floor, rev)? {
                Some(recorded) => {
                    let (revision, bytes) = recorded.parts();
                    line.push(revision, bytes)?;
                }
                None => return Ok(None),
            }
        }
        Ok(Some(line))
    }

    pub(crate) fn open(&mut self, went: Went) -> Result<Outcome, AllocError>
        ensures { IfOk result (λ o. did (world_of self.new) o ≡ (if is_up self.old.lock then barred (world_of self.old) else open_at (world_of self.old) went)) }
    {
        if is_lock_up(&self.lock) {
            return Ok(Outcome::Barred);
        }
        if !is_fine(&went) {
            return self.fail_to_open(went);
        }
        match (
            find_number(&self.disk, &FileName::Current),
            find_number(&self.disk, &FileName::Floor),
        ) {
            (Some(last), Some(floor)) => {
                if last < u64::MAX as u128 {
                    let last = last as u64;
                    self.open_at(last, last + 1, floor)
                } else {
                    Ok(Outcome::Missing)
                }
            }
            _ => Ok(Outcome::Missing),
        }
    }

    fn fail_to_open(&mut self, went: Went) -> Result<Outcome, AllocError>
        ensures { IfOk result (λ o. did (world_of self.new) o ≡ did (record (world_of self.old) { disk = disk_after went NameChange.Firm self.old.disk.items }) Outcome.Failed) }
    {
        if let Some(change) = change_made(went, NameChange::Firm) {
            self.disk.push_front(change)?;
        }
        Ok(Outcome::Failed)
    }

    fn open_at(&mut self, last: u64, count: u64, floor: u128) -> Result<Outcome, AllocError>
        requires { count ≡ last + 1 }
        ensures { IfOk result (λ o. did (world_of self.new) o ≡ opened (world_of self.old) last floor (read_back (non_zero_u64_get self.old.size) floor self.old.disk.items (last + 1))) }
    {
        match self.read_back(floor, count)? {
            Some(line) => {
                self.disk.push_front(NameChange::Firm)?;
                self.lock = Lock::Free;
                self.young = last;
                self.line = line;
                self.opening = count;
                self.since.clear();
                self.low = floor;
                self.floor = floor;
                self.named.clear();
                self.txns.clear();
                self.spent.clear();
                self.passes.clear();
                self.passes.push(Pass::first(self.alloc, count, floor))?;
                Ok(Outcome::Done)
            }
            None => Ok(Outcome::Missing),
        }
    }
}
