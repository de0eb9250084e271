// Transactions that begin, over any disk.
ghost use Rattle.std.specs.Prelude.{◌≡◌, IsTrue};

use crate::answers::{say_begin_fault, say_open_fault, say_txn};
use fsfs_base::RevNum;
use fsfs_create::{OpenedStore, Unopened, open_store};
use fsfs_disk::Disk;
use fsfs_memory::Transcript;
use fsfs_repo::{HeldNodes, Txn, begin_txn};
use fsfs_turn::Owned;
use std::alloc::Global;

/// A transaction over a bench.
pub type HeldTxn<W> = Txn<HeldNodes<W>>;

// Begins a transaction in a store, and gives the store's disk back.
fn begin_in<D: Disk>(
    alloc: Global,
    store: Owned<D>,
    base: RevNum,
    out: &mut Transcript,
) -> (D, Option<HeldTxn<D::Bench>>)
    ensures right { IsTrue (D.may_write result.0) }
    ensures mounted { D.mount_path result.0 ≡ D.mount_path store.disk }
{
    let (left, begun) = begin_txn(&(), alloc, store, base);
    let disk = left.into_disk();
    match begun {
        Ok(txn) => {
            out.say("begun ");
            say_txn(alloc, &txn.name(), out);
            (disk, Some(txn))
        }
        Err(fault) => {
            say_begin_fault(&fault, out);
            (disk, None)
        }
    }
}

/// `REV`: opens the repository, and begins a transaction on the revision. The disk again, and the transaction.
pub fn begin_on<D: Disk>(
    alloc: Global,
    disk: D,
    word: &str,
    out: &mut Transcript,
) -> (D, Option<HeldTxn<D::Bench>>)
    requires { IsTrue (D.may_write disk) }
    ensures right { IsTrue (D.may_write result.0) }
    ensures mounted { D.mount_path result.0 ≡ D.mount_path disk }
{
    let Some(base) = RevNum::plain(word.as_bytes()) else {
        out.say("? no revision");
        return (disk, None);
    };
    match open_store(alloc, disk) {
        Ok(OpenedStore { store, .. }) => begin_in(alloc, store, base, out),
        Err(Unopened { why, disk }) => {
            say_open_fault(&why, out);
            (disk, None)
        }
    }
}
