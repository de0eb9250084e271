// A transaction that is begun and purged by turns.
use fsfs_base::RevNum;
use fsfs_begin::{Begun, PurgeFault, begin, purge};
use fsfs_create::{OpenedStore, Unopened, open_store};
use fsfs_example_calls::{say_begin_fault, say_disk_fault, say_open_fault, say_txn};
use fsfs_memory::{MemBench, MemDisk, Transcript};
use fsfs_turn::Owned;
use std::alloc::Global;

fn purge_begun(
    alloc: Global,
    store: &mut Owned<MemDisk>,
    begun: Begun<MemBench>,
    out: &mut Transcript,
) {
    let Begun { name, bench, .. } = begun;
    out.say("begun ");
    say_txn(alloc, &name, out);
    let rt = ();
    match purge(&rt, store, &name, bench) {
        Ok(()) => out.say(", purged"),
        Err(PurgeFault::DiskFault(place)) => {
            out.say(", ");
            say_disk_fault(place, out);
        }
    }
}

fn begin_and_purge(
    alloc: Global,
    store: Owned<MemDisk>,
    base: RevNum,
    out: &mut Transcript,
) -> MemDisk {
    let rt = ();
    let (back, begun) = begin(alloc, &rt, store, base);
    let mut store = back;
    match begun {
        Ok(begun) => purge_begun(alloc, &mut store, begun, out),
        Err(fault) => say_begin_fault(&fault, out),
    }
    store.into_disk()
}

/// Opens the store, begins a transaction on a revision, and purges it.
pub fn purge_on(alloc: Global, disk: MemDisk, word: &str, out: &mut Transcript) -> MemDisk {
    let Some(base) = RevNum::plain(word.as_bytes()) else {
        out.say("? no revision");
        return disk;
    };
    match open_store(alloc, disk) {
        Ok(OpenedStore { store, .. }) => begin_and_purge(alloc, store, base, out),
        Err(Unopened { why, disk }) => {
            say_open_fault(&why, out);
            disk
        }
    }
}
