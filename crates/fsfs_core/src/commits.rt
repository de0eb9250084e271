//! Steps of transactions: edits, merges, and a commit's first call.
ghost use Rattle.std.specs.Prelude.{◌≡◌, ◌<◌, ℕ, length, slice_get, IfOk, OnOk};
ghost use Rattle.fsfs_machine.specs.Machine.{did, answer, either, has_begun_by, Adopts, AdoptsTxn, Edits, Merges, at_call, file_of, recorded};
ghost use Rattle.fsfs_core.specs.State.{world_of};
ghost use Rattle.fsfs_core.specs.Commits.{AddsNext, IsUsed};

use crate::state::State;
use crate::txns::{edit_of, land_on, next_of, tree_at};
use fsfs_base::{CommitPlace, DiskPlace, Pairs, RevNum};
use fsfs_machine::files::is_fine;
use fsfs_machine::section::answer_of;
use fsfs_machine::{
    Bytes, Coming, Contents, FileName, NameChange, Outcome, Section, Went, set_edited, set_merged,
};
use fsfs_model::Edit;
use fsfs_tree::Revision;
use std::alloc::{AllocError, Global};

fn begun_section(coming: Coming, went: &Went) -> Section
    ensures { result ≡ either went.now (Section.RevPut coming) Section.Over }
{
    if is_fine(went) {
        Section::RevPut(coming)
    } else {
        Section::Over
    }
}

// The file that shows the revision.
fn rev_file(alloc: Global, coming: &Coming) -> Result<Contents, AllocError>
    ensures { IfOk result (λ file. file ≡ file_of (recorded coming.now)) }
{
    Ok(Contents::RevFile(
        coming.revision.tree.clone()?,
        coming.revision.changes.clone()?,
        coming.bytes.copy(alloc)?,
    ))
}

impl State {
    fn put_rev(&mut self, p: u64, coming: Coming, went: Went) -> Result<Outcome, AllocError>
        ensures { IfOk result (λ o. did (world_of self.new) o
            ≡ did (at_call (world_of self.old) p (DiskPlace.Commit CommitPlace.PutRev) (NameChange.Put (FileName.Rev (length self.old.line)) (file_of (recorded coming))) (Section.RevPut coming) Section.Over went) (answer went)) }
    {
        let change = NameChange::Put(FileName::Rev(self.count()), rev_file(self.alloc, &coming)?);
        let answer = answer_of(&went);
        let section = begun_section(coming, &went);
        self.end_call(
            p,
            DiskPlace::Commit(CommitPlace::PutRev),
            change,
            section,
            went,
        )?;
        Ok(answer)
    }

    fn next_revision(&self, t: u64, properties: &Pairs) -> Result<Option<Revision>, AllocError>
        ensures { (p : ℕ) → IfOk result (λ o. AddsNext self.now.line p (slice_get self.now.txns.items t) properties.now o) }
    {
        let at = t as usize;
        if at >= self.txns.len() {
            return Ok(None);
        }
        next_of(
            self.alloc,
            self.line.revisions(),
            &self.txns[at],
            properties,
        )
    }

    // The transaction goes, and comes as that revision.
    fn use_txn(
        &mut self,
        p: u64,
        t: u64,
        properties: Pairs,
        revision: Revision,
        bytes: Bytes,
    ) -> Result<Coming, AllocError>
        requires { t < length self.old.txns.items }
        ensures { IfOk result (λ coming. IsUsed (world_of self.old) p t properties revision bytes (slice_get self.old.txns.items t) coming (world_of self.new)) }
    {
        let txn = self.txns.remove(t as usize);
        self.spent.push(txn.name)?;
        Ok(Coming {
            entry: txn.entry(p, properties),
            revision,
            bytes,
        })
    }

    fn adopt_txn(
        &mut self,
        p: u64,
        t: u64,
        properties: Pairs,
        bytes: Bytes,
        went: Went,
    ) -> Result<Outcome, AllocError>
        ensures { IfOk result (λ o. AdoptsTxn (world_of self.old) p t properties bytes went (slice_get self.old.txns.items t) (did (world_of self.new) o)) }
    {
        match self.next_revision(t, &properties)? {
            None => Ok(Outcome::Barred),
            Some(revision) => {
                let coming = self.use_txn(p, t, properties, revision, bytes)?;
                self.put_rev(p, coming, went)
            }
        }
    }

    // `PutRev`.
    pub(crate) fn adopt_rev(
        &mut self,
        p: u64,
        t: u64,
        properties: Pairs,
        bytes: Bytes,
        went: Went,
    ) -> Result<Outcome, AllocError>
        ensures { IfOk result (λ o. Adopts (world_of self.old) p t properties bytes went (has_begun_by p self.old.lock) (did (world_of self.new) o)) }
    {
        if self.has_begun(p) {
            self.adopt_txn(p, t, properties, bytes, went)
        } else {
            Ok(Outcome::Barred)
        }
    }

    pub(crate) fn edit(&mut self, t: u64, edit: &Edit) -> Result<Outcome, AllocError>
        ensures { IfOk result (λ o. Edits (world_of self.old) t edit.now (slice_get self.old.txns.items t) (did (world_of self.new) o)) }
    {
        let at = t as usize;
        if at >= self.txns.len() {
            return Ok(Outcome::Barred);
        }
        let own = &self.txns[at].tree;
        match edit_of(self.alloc, edit, self.line.revisions(), own)? {
            None => Ok(Outcome::Barred),
            Some((tree, mark)) => {
                set_edited(&mut self.txns, t, tree, mark)?;
                Ok(Outcome::Done)
            }
        }
    }

    pub(crate) fn merge(&mut self, t: u64, head: RevNum) -> Result<Outcome, AllocError>
        ensures { IfOk result (λ o. Merges (world_of self.old) t head (slice_get self.old.txns.items t) (did (world_of self.new) o)) }
    {
        let at = t as usize;
        if at >= self.txns.len() {
            return Ok(Outcome::Barred);
        }
        let txn = &self.txns[at];
        if head.get() < txn.base.get() {
            return Ok(Outcome::Barred);
        }
        let history = self.line.revisions();
        match (tree_at(history, txn.base), tree_at(history, head)) {
            (Some(base), Some(tip)) => match land_on(self.alloc, txn, base, tip, head)? {
                Ok(tree) => {
                    set_merged(&mut self.txns, t, tree, head);
                    Ok(Outcome::Done)
                }
                Err(path) => Ok(Outcome::Conflict(path)),
            },
            _ => Ok(Outcome::Barred),
        }
    }
}
