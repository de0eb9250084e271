// A store is opened.
ghost use Rattle.std.specs.Prelude.{◌≡◌, ◌≤◌, List, IfOk, IfErr, IfSome, IsTrue, MatchResult};
ghost use Rattle.fsfs_base.specs.Failures.{Rose};
ghost use Rattle.fsfs_tree.specs.Revisions.{Revision};
ghost use Rattle.fsfs_layout.specs.Opening.{IsOpened, small_texts};
ghost use Rattle.fsfs_disk.specs.Trace.{FirmNames, files_now, FailsAt, Performs};
ghost use Rattle.fsfs_stands.specs.Files.{StandsFor};
ghost use Rattle.fsfs_create.specs.OpenFaults.{OpensBecause};
ghost use Rattle.fsfs_create.specs.Known.{HasSeenAll, DecidesSo};

use crate::open;
use fsfs_base::OpenFault;
use fsfs_disk::Disk;
use fsfs_layout::Opened;
use fsfs_turn::{Owned, Turns};
use std::alloc::Global;

/// A store that was opened, and what its small files said then.
#[derive(Drop)]
pub struct OpenedStore<D: Disk> {
    pub store: Owned<D>,
    pub said: Opened,
}

/// Why no store was opened, and the disk again.
#[derive(Drop)]
pub struct Unopened<D: Disk> {
    pub why: OpenFault,
    pub disk: D,
}

/// Opens the store on a disk: makes its names firm and reads its small files, each no further than its first 64 bytes.
pub fn open_store<D: Disk>(alloc: Global, mut disk: D) -> Result<OpenedStore<D>, Unopened<D>>
    requires { IsTrue (D.may_write disk) }
    ensures opened { IfSome (D.trace disk) (λ t. IfOk result (λ o. IsOpened (small_texts (files_now t)) o.said)) }
    // Where the files stand for a history, packed or not, its pass has seen all of that history, and is in no section. Of images it is
    // spoken from then on.
    ensures known { IfSome (D.trace disk) (λ t. (h : List Revision) (stands : StandsFor (files_now t) h)
        → IfOk result (λ o. HasSeenAll (⟦<Owned<D> as Turns<()>>⟧.knows o.store) t stands.opened.min_unpacked_rev stands.opened.next_txn.number h)) }
    ensures same { IfOk result (λ o. (o.store.layout ≡ o.said.layout) × (o.store.floor ≡ o.said.min_unpacked_rev) × (o.store.young ≡ o.said.youngest)) }
    ensures refused { IfErr result (λ e. OpensBecause (Rose (D.faults disk) (D.faults e.disk)) (D.trace disk) e.why) }
    // Where it is opened or refused is decided by the files alone.
    ensures decided { IfSome (D.trace disk) (λ t. DecidesSo (small_texts (files_now t)) result (λ o. o.said) (λ e. e.why)) }
    ensures firm { IfOk result (λ o. Performs FirmNames (D.trace disk) (D.trace o.store.disk)) }
    ensures left { IfErr result (λ e. FailsAt FirmNames (D.trace disk) (D.trace e.disk)) }
    ensures right { IfErr result (λ e. D.may_write e.disk ≡ D.may_write disk) }
    ensures later { MatchResult result (λ o. D.faults disk ≤ ⟦<Owned<D> as Turns<()>>⟧.faults o.store) (λ e. D.faults disk ≤ D.faults e.disk) }
    ensures mounted { MatchResult result (λ o. D.mount_path o.store.disk ≡ D.mount_path disk) (λ e. D.mount_path e.disk ≡ D.mount_path disk) }
    ensures benches { MatchResult result (λ o. D.bench_faults o.store.disk ≡ D.bench_faults disk) (λ e. D.bench_faults e.disk ≡ D.bench_faults disk) }
{
    match open(alloc, &mut disk) {
        Ok(said) => Ok(OpenedStore {
            store: Owned::new(disk, said.layout, said.min_unpacked_rev, said.youngest),
            said,
        }),
        Err(why) => Err(Unopened { why, disk }),
    }
}
