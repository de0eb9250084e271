//! Labels of transactions: made, listed and dropped.
ghost use Rattle.std.specs.Prelude.{◌≡◌, ◌&&◌, ◌++◌, ◌∷◌, [], slice_get, IfOk, OnOk, if◌then◌else◌};
ghost use Rattle.fsfs_machine.specs.Machine.{did, barred, answer, either, is_there, is_outside, is_up, turned, listed, begun_txn, made, purged, purged_spent, label_dropped, unlabelled};
ghost use Rattle.fsfs_core.specs.State.{world_of};

use crate::state::State;
use crate::txns::base_tree;
use fsfs_base::DiskPlace;
use fsfs_machine::files::is_fine;
use fsfs_machine::labels::{drop_label, is_labelled, put_label};
use fsfs_machine::passes::learn;
use fsfs_machine::section::{answer_of, is_lock_up, is_outside_section};
use fsfs_machine::{Drawn, Marks, Names, Outcome, Txn, Went};
use std::alloc::AllocError;
use std::collections::VecDeque;
use std::mem;

fn drop_answer(there: bool, went: &Went) -> Outcome
    ensures { result ≡ either went.now (if there then Outcome.Done else Outcome.Missing) Outcome.Failed }
{
    if !is_fine(went) {
        Outcome::Failed
    } else if there {
        Outcome::Done
    } else {
        Outcome::Missing
    }
}

impl State {
    // Whether there is such a pass, and it is in no section.
    fn is_apart(&self, p: u64) -> bool
        ensures { result ≡ (is_there (world_of self.now) p && is_outside p self.now.lock) }
    {
        self.is_there(p) && is_outside_section(p, &self.lock)
    }

    // A turn of the pass that leaves all else.
    fn turn(&mut self, p: u64, place: DiskPlace, went: &Went) -> Result<(), AllocError>
        ensures { OnOk result (world_of self.new ≡ turned (world_of self.old) p place went.now) }
    {
        let seen = self.count();
        learn(&mut self.passes, p, seen, place, went)
    }

    fn unlabel(&mut self, name: u128, went: &Went) -> Result<(), AllocError>
        ensures { OnOk result (world_of self.new ≡ record (world_of self.old) { labels = unlabelled went.now name self.old.labels.items }) }
    {
        let labels = mem::replace(&mut self.labels, VecDeque::new(self.alloc));
        self.labels = drop_label(self.alloc, labels, name, went)?;
        Ok(())
    }

    // The transaction is begun, or it is no more.
    fn begin_txn(&mut self, drawn: &Drawn, went: &Went) -> Result<(), AllocError>
        ensures { OnOk result (world_of self.new ≡ record (world_of self.old) {
          txns = either went.now (self.old.txns.items ++ begun_txn self.old.line drawn.now ∷ []) self.old.txns.items;
          spent = either went.now self.old.spent.items (self.old.spent.items ++ drawn.now.name ∷ []);
        }) }
    {
        if is_fine(went) {
            let tree = base_tree(self.alloc, self.line.revisions(), drawn.base)?;
            self.txns.push(Txn {
                name: drawn.name,
                base: drawn.base,
                tree,
                marks: Marks::new(self.alloc),
                landings: 0,
            })?;
        } else {
            self.spent.push(drawn.name)?;
        }
        Ok(())
    }

    // `MakeBench`.
    pub(crate) fn make_bench(&mut self, p: u64, n: u64, went: &Went) -> Result<Outcome, AllocError>
        ensures { IfOk result (λ o. did (world_of self.new) o
            ≡ (if is_there (world_of self.old) p && is_outside p self.old.lock then made (world_of self.old) p n went.now (slice_get self.old.named.items n) else barred (world_of self.old))) }
    {
        let at = n as usize;
        if !self.is_apart(p) || at >= self.named.len() {
            return Ok(Outcome::Barred);
        }
        let drawn = self.named.remove(at);
        put_label(&mut self.labels, drawn.name, went)?;
        self.begin_txn(&drawn, went)?;
        self.turn(p, DiskPlace::MakeBench, went)?;
        Ok(answer_of(went))
    }

    fn list(&self, went: &Went) -> Result<Outcome, AllocError>
        ensures { IfOk result (λ o. o ≡ listed (world_of self.now) went.now) }
    {
        if is_fine(went) {
            Ok(Outcome::Names(Names::of(self.alloc, &self.labels)?))
        } else {
            Ok(Outcome::Failed)
        }
    }

    pub(crate) fn list_txns(&mut self, p: u64, went: &Went) -> Result<Outcome, AllocError>
        ensures { IfOk result (λ o. did (world_of self.new) o
            ≡ (if is_there (world_of self.old) p then did (turned (world_of self.old) p DiskPlace.List went.now) (listed (world_of self.old) went.now) else barred (world_of self.old))) }
    {
        if !self.is_there(p) {
            return Ok(Outcome::Barred);
        }
        let answer = self.list(went)?;
        self.turn(p, DiskPlace::List, went)?;
        Ok(answer)
    }

    pub(crate) fn purge(&mut self, p: u64, t: u64, went: &Went) -> Result<Outcome, AllocError>
        ensures { IfOk result (λ o. did (world_of self.new) o
            ≡ (if is_there (world_of self.old) p && is_outside p self.old.lock then purged (world_of self.old) p t went.now (slice_get self.old.txns.items t) else barred (world_of self.old))) }
    {
        let at = t as usize;
        if !self.is_apart(p) || at >= self.txns.len() {
            return Ok(Outcome::Barred);
        }
        let txn = self.txns.remove(at);
        self.unlabel(txn.name, went)?;
        self.turn(p, DiskPlace::Remove, went)?;
        Ok(answer_of(went))
    }

    pub(crate) fn purge_spent(&mut self, p: u64, n: u64, went: &Went) -> Result<Outcome, AllocError>
        ensures { IfOk result (λ o. did (world_of self.new) o
            ≡ (if is_there (world_of self.old) p && is_outside p self.old.lock then purged_spent (world_of self.old) p n went.now (slice_get self.old.spent.items n) else barred (world_of self.old))) }
    {
        let at = n as usize;
        if !self.is_apart(p) || at >= self.spent.len() {
            return Ok(Outcome::Barred);
        }
        let name = self.spent.remove(at);
        self.unlabel(name, went)?;
        self.turn(p, DiskPlace::Remove, went)?;
        Ok(answer_of(went))
    }

    // While no object has the disk.
    pub(crate) fn list_labels(&self, went: &Went) -> Result<Outcome, AllocError>
        ensures { IfOk result (λ o. did (world_of self.now) o ≡ (if is_up self.now.lock then barred (world_of self.now) else did (world_of self.now) (listed (world_of self.now) went.now))) }
    {
        if is_lock_up(&self.lock) {
            Ok(Outcome::Barred)
        } else {
            self.list(went)
        }
    }

    pub(crate) fn drop_label(&mut self, name: u128, went: &Went) -> Result<Outcome, AllocError>
        ensures { IfOk result (λ o. did (world_of self.new) o ≡ (if is_up self.old.lock then barred (world_of self.old) else label_dropped (world_of self.old) name went.now)) }
    {
        if is_lock_up(&self.lock) {
            return Ok(Outcome::Barred);
        }
        let there = is_labelled(&self.labels, name);
        self.unlabel(name, went)?;
        Ok(drop_answer(there, went))
    }
}
