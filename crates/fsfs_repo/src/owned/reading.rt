//! Readers of a repository that runs.
ghost use Rattle.std.specs.Prelude.{◌≡◌, option_map};
ghost use Rattle.fsfs_disk.specs.Trace.{labels_now};
ghost use Rattle.fsfs_turn.specs.Views.{View};
ghost use Rattle.fsfs_turn.specs.Seen.{ReadsSeen};
ghost use Rattle.fsfs_repo.specs.Owned.Alone.{KnowsIn};
ghost use Rattle.fsfs_repo.specs.Owned.Readers.{TellsSeenAll};

use crate::owned::repo::Repo;
use fsfs_disk::Disk;
use fsfs_fetch::Direct;
use fsfs_revision::{Book, RevProps};
use fsfs_turn::{Owned, TurnReads, Turns, over_turns, turns_of};
use std::alloc::Global;

/// A book of a repository's revisions, whose calls are turns. Where a revision's own file is absent it reads the floor again once,
/// and then the revision once more.
pub type Reader<'a, R, D> = Direct<TurnReads<'a, R, Owned<D>>>;

impl<D: Disk> Repo<D> {
    /// A reader, which takes the repository until it gives it back.
    pub fn reader<'a, R>(self, rt: &'a R, alloc: Global) -> Direct<TurnReads<'a, R, Owned<D>>>
        // Of each revision up to the youngest it tells the bytes beside it, which show its tree.
        ensures told { (v : View) → ⟦<Owned<D> as Turns<R>>⟧.knows self.turns v → TellsSeenAll v (⟦<Direct<TurnReads<'a, R, Owned<D>>> as Book>⟧.told result) }
        // Of its property file nothing is read but a dump of its properties.
        ensures props { (v : View) → ⟦<Owned<D> as Turns<R>>⟧.knows self.turns v → ReadsSeen v (⟦<Direct<TurnReads<'a, R, Owned<D>>> as RevProps>⟧.may_read result) }
        ensures below { (⟦<Direct<TurnReads<'a, R, Owned<D>>> as Book>⟧.told result).below ≡ (⟦<Owned<D> as Turns<R>>⟧.store self.turns).below }
        // The labels that are kept are of what no reading changes.
        ensures listed { option_map labels_now (⟦<Direct<TurnReads<'a, R, Owned<D>>> as Book>⟧.told result).below.trace ≡ ⟦<Owned<D> as Turns<R>>⟧.labels self.turns }
        ensures mounted { (⟦<Direct<TurnReads<'a, R, Owned<D>>> as Book>⟧.told result).below.mount_path ≡ D.mount_path self.turns.disk }
        ensures benches { (⟦<Direct<TurnReads<'a, R, Owned<D>>> as Book>⟧.told result).below.bench_faults ≡ D.bench_faults self.turns.disk }
        ensures faults { ⟦<Direct<TurnReads<'a, R, Owned<D>>> as Book>⟧.faults result ≡ ⟦<Owned<D> as Turns<R>>⟧.faults self.turns }
    {
        let Repo { turns } = self;
        over_turns(alloc, rt, turns)
    }

    /// The repository of a reader again. What the pass knew is known then.
    pub fn of_reader<'a, R>(reader: Direct<TurnReads<'a, R, Owned<D>>>) -> Repo<D>
        ensures below { (⟦<Owned<D> as Turns<R>>⟧.store result.turns).below ≡ (⟦<Direct<TurnReads<'a, R, Owned<D>>> as Book>⟧.told reader.entry).below }
        ensures known { (v : View) → KnowsIn (⟦<Direct<TurnReads<'a, R, Owned<D>>> as Book>⟧.told reader.entry).below v → ⟦<Owned<D> as Turns<R>>⟧.knows result.turns v }
        ensures listed { ⟦<Owned<D> as Turns<R>>⟧.labels result.turns ≡ option_map labels_now (⟦<Direct<TurnReads<'a, R, Owned<D>>> as Book>⟧.told reader.entry).below.trace }
        ensures mounted { D.mount_path result.turns.disk ≡ (⟦<Direct<TurnReads<'a, R, Owned<D>>> as Book>⟧.told reader.entry).below.mount_path }
        ensures benches { D.bench_faults result.turns.disk ≡ (⟦<Direct<TurnReads<'a, R, Owned<D>>> as Book>⟧.told reader.entry).below.bench_faults }
        ensures faults { ⟦<Owned<D> as Turns<R>>⟧.faults result.turns ≡ ⟦<Direct<TurnReads<'a, R, Owned<D>>> as Book>⟧.faults reader.entry }
    {
        Repo {
            turns: turns_of(reader),
        }
    }
}
