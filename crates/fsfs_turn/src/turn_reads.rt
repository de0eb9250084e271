//! The turns of a pass, as a store that is read.
ghost use Rattle.std.specs.Prelude.{◌≡◌};
ghost use Rattle.fsfs_turn.specs.Views.{View};
ghost use Rattle.fsfs_turn.specs.Seen.{TellsRevisions, ReadsSeen};

use crate::Turns;
use fsfs_base::{Failed, Name, RevNum};
use fsfs_fetch::{Direct, Reads};
use fsfs_layout::{Layout, RepositoryFile};
use fsfs_revision::{Book, RevProps};
use std::alloc::Global;

/// The turns of a pass as a store that is read, beside what a call needs to wait for its turn.
#[derive(Drop)]
pub struct TurnReads<'a, R, T: Turns<R>> {
    rt: &'a R,
    turns: T,
}

impl<R, T: Turns<R>> Reads for TurnReads<'_, R, T> {
    ghost use Rattle.fsfs_turn.specs.Seen.{seen_props};

    ghost Below = { T.Lasting };

    ghost view = { λ r. T.store r.turns };

    ghost may_meet = { λ r. seen_props (T.knows r.turns) };

    ghost faults = { λ r. T.faults r.turns };

    fn layout(&self) -> Layout {
        self.turns.layout()
    }

    fn youngest(&mut self) -> RevNum {
        self.turns.look()
    }

    fn read(
        &mut self,
        name: &Name,
        offset: u64,
        buffer: &mut [u8],
    ) -> Result<Option<usize>, Failed> {
        self.turns.read(self.rt, name, offset, buffer)
    }

    fn read_props(&mut self, rev: RevNum, buffer: &mut [u8]) -> Result<Option<usize>, Failed> {
        let name = RepositoryFile::Props(rev).name(self.turns.layout());
        self.turns.read(self.rt, &name, 0, buffer)
    }

    fn size(&mut self, name: &Name) -> Result<Option<u64>, Failed> {
        self.turns.size(self.rt, name)
    }

    ghost short = { λ r. T.short r.turns };
}

/// A book over turns. Of each revision that the pass has seen it tells the bytes beside it, and reads its properties. It begins with the
/// floor of the opening: no file that lay there of a revision below it is looked at.
pub fn over_turns<'a, R, T: Turns<R>>(
    alloc: Global,
    rt: &'a R,
    turns: T,
) -> Direct<TurnReads<'a, R, T>>
    ensures told { (v : View) → T.knows turns v → TellsRevisions v (⟦<Direct<TurnReads<'a, R, T>> as Book>⟧.told result) }
    ensures props { (v : View) → T.knows turns v → ReadsSeen v (⟦<Direct<TurnReads<'a, R, T>> as RevProps>⟧.may_read result) }
    // What no reading changes is below it.
    ensures below { (⟦<Direct<TurnReads<'a, R, T>> as Book>⟧.told result).below ≡ (T.store turns).below }
    ensures faults { ⟦<Direct<TurnReads<'a, R, T>> as Book>⟧.faults result ≡ T.faults turns }
{
    let floor = turns.floor();
    Direct::new(alloc, TurnReads { rt, turns }, floor)
}

/// The turns again.
pub fn turns_of<'a, R, T: Turns<R>>(book: Direct<TurnReads<'a, R, T>>) -> T
    ensures below { (T.store result).below ≡ (⟦<Direct<TurnReads<'a, R, T>> as Book>⟧.told book.entry).below }
    ensures faults { T.faults result ≡ ⟦<Direct<TurnReads<'a, R, T>> as Book>⟧.faults book.entry }
{
    let TurnReads { turns, .. } = book.into_reads();
    turns
}
