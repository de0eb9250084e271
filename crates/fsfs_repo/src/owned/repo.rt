//! A repository that runs.
ghost use Rattle.std.specs.Prelude.{◌≡◌, ◌≤◌, ◌+◌, List, length, option_map, IfOk, IfErr, IfSome, IsTrue, MatchResult};
ghost use Rattle.fsfs_base.specs.Failures.{Rose};
ghost use Rattle.fsfs_tree.specs.Revisions.{Revision};
ghost use Rattle.fsfs_layout.specs.Opening.{IsOpened, small_texts};
ghost use Rattle.fsfs_disk.specs.Trace.{FirmNames, files_now, labels_now, FailsAt, Performs};
ghost use Rattle.fsfs_stands.specs.Files.{StandsFor};
ghost use Rattle.fsfs_create.specs.OpenFaults.{OpensBecause};
ghost use Rattle.fsfs_create.specs.Known.{HasSeenAll, DecidesSo};
ghost use Rattle.fsfs_turn.specs.Views.{View, Looked};

use fsfs_base::RevNum;
use fsfs_create::{OpenedStore, Unopened, open_store};
use fsfs_disk::Disk;
use fsfs_layout::Opened;
use fsfs_turn::{Owned, Turns};
use std::alloc::Global;

/// A repository that runs over a disk of its own. It has one pass, so none of its calls waits; `rt` is what a call would wait by.
/// What the pass knows is a `View`, and each call says by which steps of the machine it goes from one to the next. The pass is alone, so
/// it has seen all revisions that there are, and no call but its own commit adds one (`IsAlone` of `fsfs_turn`).
#[derive(Drop)]
pub struct Repo<D: Disk> {
    pub(crate) turns: Owned<D>,
}

/// A repository that was opened, and what its small files said then.
#[derive(Drop)]
pub struct OpenedRepo<D: Disk> {
    pub repo: Repo<D>,
    pub said: Opened,
}

impl<D: Disk> Repo<D> {
    /// Opens the repository on a disk: makes its names firm and reads its small files.
    pub fn open(alloc: Global, disk: D) -> Result<OpenedRepo<D>, Unopened<D>>
        requires { IsTrue (D.may_write disk) }
        ensures opened { IfSome (D.trace disk) (λ t. IfOk result (λ o. IsOpened (small_texts (files_now t)) o.said)) }
        // Where the files stand for a history, packed or not, its pass has seen all of that history, and is in no section. Of images it is
        // spoken from then on.
        ensures known { IfSome (D.trace disk) (λ t. (h : List Revision) (stands : StandsFor (files_now t) h)
            → IfOk result (λ o. HasSeenAll (⟦<Owned<D> as Turns<()>>⟧.knows o.repo.turns) t stands.opened.min_unpacked_rev stands.opened.next_txn.number h)) }
        ensures refused { IfErr result (λ e. OpensBecause (Rose (D.faults disk) (D.faults e.disk)) (D.trace disk) e.why) }
        // Where it is opened or refused is decided by the files alone.
        ensures decided { IfSome (D.trace disk) (λ t. DecidesSo (small_texts (files_now t)) result (λ o. o.said) (λ e. e.why)) }
        ensures listed { IfOk result (λ o. ⟦<Owned<D> as Turns<()>>⟧.labels o.repo.turns ≡ option_map labels_now (D.trace disk)) }
        ensures firm { IfOk result (λ o. Performs FirmNames (D.trace disk) (D.trace o.repo.turns.disk)) }
        ensures left { IfErr result (λ e. FailsAt FirmNames (D.trace disk) (D.trace e.disk)) }
        ensures right { IfErr result (λ e. D.may_write e.disk ≡ D.may_write disk) }
        ensures later { MatchResult result (λ o. D.faults disk ≤ ⟦<Owned<D> as Turns<()>>⟧.faults o.repo.turns) (λ e. D.faults disk ≤ D.faults e.disk) }
        ensures mounted { MatchResult result (λ o. D.mount_path o.repo.turns.disk ≡ D.mount_path disk) (λ e. D.mount_path e.disk ≡ D.mount_path disk) }
        ensures benches { MatchResult result (λ o. D.bench_faults o.repo.turns.disk ≡ D.bench_faults disk) (λ e. D.bench_faults e.disk ≡ D.bench_faults disk) }
    {
        match open_store(alloc, disk) {
            Ok(OpenedStore { store, said }) => Ok(OpenedRepo {
                repo: Repo { turns: store },
                said,
            }),
            Err(unopened) => Err(unopened),
        }
    }

    /// The youngest revision. It takes no memory.
    pub fn youngest(&mut self) -> RevNum
        // The machine's look: the pass was told the youngest revision.
        ensures turned { (v : View) → ⟦<Owned<D> as Turns<()>>⟧.knows self.old.turns v
            → (u : View) × ⟦<Owned<D> as Turns<()>>⟧.knows self.new.turns u × Looked result v u }
        // It is alone, so it has seen all up to that one.
        ensures all { (v : View) → ⟦<Owned<D> as Turns<()>>⟧.knows self.new.turns v → length v.seen ≡ result + 1 }
        ensures same { (⟦<Owned<D> as Turns<()>>⟧.store self.new.turns).below ≡ (⟦<Owned<D> as Turns<()>>⟧.store self.old.turns).below }
        ensures listed { ⟦<Owned<D> as Turns<()>>⟧.labels self.new.turns ≡ ⟦<Owned<D> as Turns<()>>⟧.labels self.old.turns }
        ensures mounted { D.mount_path self.new.turns.disk ≡ D.mount_path self.old.turns.disk }
        ensures benches { D.bench_faults self.new.turns.disk ≡ D.bench_faults self.old.turns.disk }
        ensures faults { ⟦<Owned<D> as Turns<()>>⟧.faults self.new.turns ≡ ⟦<Owned<D> as Turns<()>>⟧.faults self.old.turns }
    {
        <Owned<D> as Turns<()>>::look(&mut self.turns)
    }

    /// The disk again. It takes no memory.
    pub fn close(self) -> D
        ensures { result ≡ self.turns.disk }
    {
        let Repo { turns } = self;
        turns.into_disk()
    }
}
