// Transactions that land, and what revision they become.
use crate::book::book_over;
use crate::committing::{append, revision_bytes};
use crate::edits::merge;
use fsfs_create::open;
use fsfs_example_calls::HeldTxn;
use fsfs_fetch::disk_of;
use fsfs_memory::{MemBench, MemDisk, Transcript};
use std::alloc::Global;

// The transaction becomes the next revision, which is told, or put into the repository.
fn finish(
    alloc: Global,
    disk: MemDisk,
    txn: HeldTxn<MemBench>,
    is_kept: bool,
    out: &mut Transcript,
) -> MemDisk {
    let mut disk = disk;
    let Ok(opened) = open(alloc, &mut disk) else {
        out.say("? no repository");
        return disk;
    };
    let Some(rev) = opened.youngest.next() else {
        out.say("RevsFull");
        return disk;
    };
    if let Some(bytes) = revision_bytes(alloc, txn, rev, out) {
        if is_kept {
            append(alloc, &mut disk, opened.layout, rev, &bytes, out);
        } else {
            out.tell(", ", &bytes.len());
            out.say("\n");
            out.lines(&bytes, "|", ":");
        }
    }
    disk
}

/// `final` and `commit`. The transaction is left, where it became no revision.
pub fn land(
    alloc: Global,
    disk: MemDisk,
    txn: HeldTxn<MemBench>,
    word: &str,
    out: &mut Transcript,
) -> (MemDisk, Option<HeldTxn<MemBench>>) {
    let mut txn = txn;
    match book_over(alloc, disk, out) {
        Ok(mut book) => {
            let landed = merge(alloc, &mut book, &mut txn, out);
            let disk = disk_of(book);
            if !landed {
                return (disk, Some(txn));
            }
            (finish(alloc, disk, txn, word == "commit", out), None)
        }
        Err(disk) => (disk, Some(txn)),
    }
}
