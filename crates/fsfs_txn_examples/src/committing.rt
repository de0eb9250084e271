// A transaction's bytes as the next revision.
use crate::faults::say_final_error;
use fsfs_base::{Failed, Name, RevNum};
use fsfs_commit::final_bytes;
use fsfs_disk::Disk;
use fsfs_draft::Own;
use fsfs_example_calls::HeldTxn;
use fsfs_layout::{Layout, OnlyFile, RepositoryFile, write_current};
use fsfs_memory::{MemBench, MemDisk, MemSink, Transcript};
use std::alloc::Global;

// The name of a transaction's prototype file in its bench.
const PROTO: &str = "rev";

// Texts of the prototype file of the transaction, and what follows them.
fn put_together(alloc: Global, proto: &[u8], end: &[u8], out: &mut Transcript) -> Option<Vec<u8>> {
    let mut bytes = Vec::new(alloc);
    if bytes.extend_from_slice(proto).is_err() || bytes.extend_from_slice(end).is_err() {
        out.lose();
        return None;
    }
    Some(bytes)
}

/// The bytes of the revision of this number that a transaction becomes, which stands on the one before.
pub fn revision_bytes(
    alloc: Global,
    txn: HeldTxn<MemBench>,
    rev: RevNum,
    out: &mut Transcript,
) -> Option<Vec<u8>> {
    let mut own = txn.into_own();
    own.forget();
    let Ok(start) = own.proto_length() else {
        out.say("BenchFault");
        return None;
    };
    let mut sink = MemSink::new(alloc);
    if let Err(error) = final_bytes(alloc, &own, own.items(), rev, start, &mut sink) {
        say_final_error(&error, out);
        return None;
    }
    let bench = own.into_bench();
    let proto = bench.file(&Name::new(PROTO)).unwrap_or(&[]);
    put_together(alloc, proto, sink.bytes(), out)
}

fn put_revision(
    disk: &mut MemDisk,
    layout: Layout,
    rev: RevNum,
    bytes: &[u8],
    current: &[u8],
) -> Result<(), Failed> {
    disk.put(&RepositoryFile::Revision(rev).name(layout), bytes)?;
    disk.put(&RepositoryFile::Props(rev).name(layout), b"END\n")?;
    disk.put(&OnlyFile::Current.name(), current)?;
    disk.firm_names()
}

/// Puts the bytes as the next revision of the repository.
pub fn append(
    alloc: Global,
    disk: &mut MemDisk,
    layout: Layout,
    rev: RevNum,
    bytes: &[u8],
    out: &mut Transcript,
) {
    let Ok(current) = write_current(alloc, rev) else {
        return out.lose();
    };
    match put_revision(disk, layout, rev, bytes, &current) {
        Ok(()) => out.tell(", r", &rev),
        Err(_) => out.say("DiskFault"),
    }
}
