//! The history in memory.
ghost use Rattle.std.specs.Prelude.{◌≡◌, ◌++◌, ◌∷◌, [], length, slice_get, IfOk, OnOk};
ghost use Rattle.std.specs.Option.{option_copied};
ghost use Rattle.fsfs_machine.specs.Machine.{revisions, part_at};

use crate::contents::{Bytes, Part};
use fsfs_tree::{History, Revision};
use std::alloc::{AllocError, Global};
use std::marker::Model;

/// The revisions of a history, with the bytes beside each.
#[derive(Drop)]
pub struct Line {
    history: History,
    bytes: Vec<Bytes>,
}

impl Model for Line {
    ghost use Rattle.std.specs.Prelude.{◌≡◌, List, length};
    ghost use Rattle.std.specs.Coded.{coded_list};
    ghost use Rattle.fsfs_machine.specs.declared.machine.Recorded.{Recorded};
    ghost use Rattle.fsfs_machine.specs.Lines.{recorded_with, coded_recorded};

    ghost Value = { List Recorded };

    ghost coded = { coded_list coded_recorded };

    ghost view = { λ a. recorded_with a.history a.bytes.items };

    ghost invariant = { λ a. length a.history ≡ length a.bytes.items };
}

fn nth(all: &[Bytes], place: usize) -> Option<&Bytes>
    ensures { option_copied result ≡ slice_get all.now place }
{
    all.get(place)
}

impl Line {
    /// No revisions.
    pub fn new(alloc: Global) -> Line
        ensures { result ≡ [] }
    {
        Line {
            history: History::new(alloc),
            bytes: Vec::new(alloc),
        }
    }

    /// How many revisions there are.
    #[tactic(auto, using(crate::proofs::LineLemmas::length_with))]
    pub fn count(&self) -> usize
        ensures { result ≡ length self.now }
    {
        self.history.count()
    }

    /// The revisions without the bytes.
    #[tactic(auto, using(crate::proofs::LineLemmas::revisions_with))]
    pub fn revisions(&self) -> &History
        ensures { result.now ≡ revisions self.now }
    {
        &self.history
    }

    /// The revision of this number with its bytes, as a pack has it.
    #[tactic(auto, using(crate::proofs::LineLemmas::part_found, crate::proofs::LineLemmas::no_revision, crate::proofs::LineLemmas::no_bytes))]
    pub fn part(&self, alloc: Global, number: usize) -> Result<Option<Part>, AllocError>
        ensures { IfOk result (λ o. o ≡ part_at (slice_get self.now number)) }
    {
        let Some(revision) = self.history.at(number) else {
            return Ok(None);
        };
        let Some(bytes) = nth(&self.bytes, number) else {
            return Ok(None);
        };
        Ok(Some(Part {
            tree: revision.tree.clone()?,
            changes: revision.changes.clone()?,
            bytes: bytes.copy(alloc)?,
        }))
    }

    /// Adds the next revision with its bytes.
    #[tactic(auto, using(crate::proofs::LineLemmas::with_more, crate::proofs::LineLemmas::length_more))]
    pub fn push(&mut self, revision: Revision, bytes: Bytes) -> Result<(), AllocError>
        ensures { OnOk result (self.new ≡ self.old ++ record { revision = revision; bytes = bytes } ∷ []) }
    {
        self.bytes.push(bytes)?;
        match self.history.push(revision) {
            Ok(()) => Ok(()),
            Err(error) => {
                self.bytes.pop();
                Err(error)
            }
        }
    }
}
