//! Reads, and steps of passes alone.
ghost use Rattle.std.specs.Prelude.{◌≡◌, ◌==◌, ◌&&◌, not, slice_get, IfOk, if◌then◌else◌};
ghost use Rattle.std.specs.NonZero.{non_zero_u64_get};
ghost use Rattle.fsfs_machine.specs.Disk.{found, shown};
ghost use Rattle.fsfs_machine.specs.Machine.{did, barred, is_there, either, range_of, floor_of, has_read, properties_in, has_read_props, floor_read, split_off, join_with, number_of};
ghost use Rattle.fsfs_core.specs.State.{world_of};

use crate::state::State;
use fsfs_base::DiskPlace;
use fsfs_machine::files::{find, find_number, is_fine};
use fsfs_machine::packs::{Shown, find_shown};
use fsfs_machine::passes::{join_to, learn, read_floor_by};
use fsfs_machine::{Contents, FileName, Outcome, Went};
use std::alloc::AllocError;

fn floor_answer(found: Option<u128>, went: &Went) -> Outcome
    ensures { result ≡ either went.now (floor_of found) Outcome.Failed }
{
    if !is_fine(went) {
        return Outcome::Failed;
    }
    match found {
        Some(number) => Outcome::Floor(number),
        None => Outcome::Missing,
    }
}

impl State {
    // Bytes of a revision's file, by this floor.
    #[tactic(auto, using(crate::proofs::Reading::range_none))]
    fn range(&self, floor: u128, rev: u64, offset: u64, length: u64) -> Result<Outcome, AllocError>
        ensures { IfOk result (λ o. o ≡ range_of offset length (shown (non_zero_u64_get self.now.size) floor self.now.disk.items rev)) }
    {
        match find_shown(&self.disk, self.size.get(), floor, rev) {
            Some(
                Shown {
                    tree: _tree,
                    changes: _changes,
                    bytes,
                },
            ) => Ok(Outcome::Bytes(bytes.range(self.alloc, offset, length)?)),
            None => Ok(Outcome::Missing),
        }
    }

    fn range_answer(
        &self,
        floor: u128,
        rev: u64,
        offset: u64,
        length: u64,
        went: &Went,
    ) -> Result<Outcome, AllocError>
        ensures { IfOk result (λ o. o ≡ either went.now (range_of offset length (shown (non_zero_u64_get self.now.size) floor self.now.disk.items rev)) Outcome.Failed) }
    {
        if is_fine(went) {
            self.range(floor, rev, offset, length)
        } else {
            Ok(Outcome::Failed)
        }
    }

    // Reads what the pass knows of.
    pub(crate) fn read(
        &mut self,
        p: u64,
        rev: u64,
        offset: u64,
        length: u64,
        went: &Went,
    ) -> Result<Outcome, AllocError>
        ensures { IfOk result (λ o. did (world_of self.new) o ≡ has_read (world_of self.old) p rev offset length went.now (slice_get self.old.passes.items p)) }
    {
        let at = p as usize;
        if at >= self.passes.len() {
            return Ok(Outcome::Barred);
        }
        let pass = &self.passes[at];
        if !pass.knows(rev) {
            return Ok(Outcome::Barred);
        }
        let answer = self.range_answer(pass.floor, rev, offset, length, went)?;
        let seen = self.count();
        learn(&mut self.passes, p, seen, DiskPlace::Read, went)?;
        Ok(answer)
    }

    fn properties(&self, rev: u64) -> Result<Outcome, AllocError>
        ensures { IfOk result (λ o. o ≡ properties_in (found self.now.disk.items (FileName.Props rev))) }
    {
        match find(&self.disk, &FileName::Props(rev)) {
            Some(Contents::PropsFile(properties)) => Ok(Outcome::Properties(properties.clone()?)),
            _ => Ok(Outcome::Missing),
        }
    }

    fn properties_answer(&self, rev: u64, went: &Went) -> Result<Outcome, AllocError>
        ensures { IfOk result (λ o. o ≡ either went.now (properties_in (found self.now.disk.items (FileName.Props rev))) Outcome.Failed) }
    {
        if is_fine(went) {
            self.properties(rev)
        } else {
            Ok(Outcome::Failed)
        }
    }

    // Reads the properties of what the pass knows of.
    pub(crate) fn read_props(
        &mut self,
        p: u64,
        rev: u64,
        went: &Went,
    ) -> Result<Outcome, AllocError>
        ensures { IfOk result (λ o. did (world_of self.new) o ≡ has_read_props (world_of self.old) p rev went.now (slice_get self.old.passes.items p)) }
    {
        let at = p as usize;
        if at >= self.passes.len() {
            return Ok(Outcome::Barred);
        }
        if !self.passes[at].knows(rev) {
            return Ok(Outcome::Barred);
        }
        let answer = self.properties_answer(rev, went)?;
        let seen = self.count();
        learn(&mut self.passes, p, seen, DiskPlace::Read, went)?;
        Ok(answer)
    }

    pub(crate) fn read_floor(&mut self, p: u64, went: &Went) -> Result<Outcome, AllocError>
        ensures { IfOk result (λ o. did (world_of self.new) o ≡ floor_read (world_of self.old) p went.now (slice_get self.old.passes.items p)) }
    {
        if !self.is_there(p) {
            return Ok(Outcome::Barred);
        }
        let found = find_number(&self.disk, &FileName::Floor);
        let seen = self.count();
        read_floor_by(&mut self.passes, p, seen, found, went)?;
        Ok(floor_answer(found, went))
    }

    pub(crate) fn split(&mut self, p: u64) -> Result<Outcome, AllocError>
        ensures { IfOk result (λ o. did (world_of self.new) o ≡ split_off (world_of self.old) (slice_get self.old.passes.items p)) }
    {
        let at = p as usize;
        if at >= self.passes.len() {
            return Ok(Outcome::Barred);
        }
        let new = self.passes[at].split(self.alloc);
        self.passes.push(new)?;
        Ok(Outcome::Done)
    }

    pub(crate) fn join(&mut self, p: u64, q: u64) -> Result<Outcome, AllocError>
        ensures { IfOk result (λ o. did (world_of self.new) o
            ≡ (if is_there (world_of self.old) p && not (p == q) then join_with (world_of self.old) p (slice_get self.old.passes.items q) else barred (world_of self.old))) }
    {
        let at = q as usize;
        if !self.is_there(p) || p == q || at >= self.passes.len() {
            return Ok(Outcome::Barred);
        }
        let other = self.passes[at].view(self.alloc)?;
        join_to(&mut self.passes, p, &other)?;
        Ok(Outcome::Done)
    }
}
