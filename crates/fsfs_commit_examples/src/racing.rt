// A commit beside others.
ghost use Rattle.fsfs_begin.specs.Benches.{TellsRoot};

use crate::calls::MOMENT;
use crate::jobs::edit_all;
use crate::rivals::Rivals;
use fsfs_base::{Pairs, RevNum};
use fsfs_begin::{Begun, begin};
use fsfs_commit::{CommitFault, CommitRefusal, TxnDraft, commit, dated};
use fsfs_create::open;
use fsfs_disk::Bench;
use fsfs_example_calls::HeldTxn;
use fsfs_memory::{MemBench, MemDisk, NoGate, Transcript, cut};
use fsfs_repo::Txn;
use fsfs_turn::{Owned, over_turns, turns_of};
use std::alloc::Global;

fn say_done(done: &Result<RevNum, CommitFault<CommitRefusal>>, out: &mut Transcript) {
    match done {
        Ok(rev) => out.tell("r", rev),
        Err(CommitFault::Refused(CommitRefusal::Clash { head, path })) => {
            out.tell("conflict r", head);
            out.tell(" ", path);
        }
        Err(_) => out.say("? another fault"),
    }
}

// Commits the transaction, while the revisions up to `last` are revealed, one each time that the lock is asked for.
fn commit_beside(
    alloc: Global,
    store: Owned<MemDisk>,
    txn: HeldTxn<MemBench>,
    last: RevNum,
    out: &mut Transcript,
) -> MemDisk {
    let rt = ();
    let Ok(properties) = dated(alloc, Pairs::new(alloc), MOMENT) else {
        out.lose();
        return store.into_disk();
    };
    let turns = Rivals::new(store, txn.base(), last);
    let (turns, _draft, done) = commit(alloc, &rt, turns, TxnDraft::new(txn, properties), &NoGate);
    say_done(&done, out);
    let (store, asked) = turns.into_parts();
    out.tell(", lock asked for ", &asked);
    store.into_disk()
}

// The transaction that has begun.
fn held<W: Bench + Drop>(alloc: Global, base: RevNum, begun: Begun<W>) -> Option<HeldTxn<W>>
    requires { TellsRoot begun.root (W.contents begun.bench) }
{
    match begun.hold(alloc) {
        Ok(own) => Some(Txn::new(own, base)),
        Err(_) => None,
    }
}

fn edit_and_commit(
    alloc: Global,
    store: Owned<MemDisk>,
    txn: HeldTxn<MemBench>,
    last: RevNum,
    edits: &str,
    out: &mut Transcript,
) -> MemDisk {
    let rt = ();
    let mut txn = txn;
    let mut book = over_turns(alloc, &rt, store);
    let done = edit_all(alloc, &mut book, &mut txn, edits, out);
    let store = turns_of(book);
    if !done {
        return store.into_disk();
    }
    commit_beside(alloc, store, txn, last, out)
}

// Begins on the first revision that is revealed.
fn race_from(
    alloc: Global,
    store: Owned<MemDisk>,
    base: RevNum,
    last: RevNum,
    edits: &str,
    out: &mut Transcript,
) -> MemDisk {
    let rt = ();
    let (store, begun) = begin(alloc, &rt, store, base);
    let Ok(begun) = begun else {
        out.say("? not begun");
        return store.into_disk();
    };
    match held(alloc, base, begun) {
        Some(txn) => edit_and_commit(alloc, store, txn, last, edits, out),
        None => {
            out.lose();
            store.into_disk()
        }
    }
}

/// `BASE EDIT, ..`: the youngest revision that is revealed is the base at first.
pub fn race(alloc: Global, disk: MemDisk, rest: &str, out: &mut Transcript) -> MemDisk {
    let mut disk = disk;
    let (base, edits) = cut(rest);
    let Some(base) = RevNum::plain(base.as_bytes()) else {
        out.say("? no revision");
        return disk;
    };
    match open(alloc, &mut disk) {
        Ok(opened) => {
            let store = Owned::new(disk, opened.layout, opened.min_unpacked_rev, base);
            race_from(alloc, store, base, opened.youngest, edits, out)
        }
        Err(_) => {
            out.say("? no repository");
            disk
        }
    }
}
