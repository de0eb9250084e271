// Files of a disk in memory.
use fsfs_example_calls::HeldTxn;
use fsfs_memory::{MemBench, MemDisk, Transcript, file_of, put_file};
use std::alloc::Global;

/// `file NAME BYTES`
pub fn put(alloc: Global, disk: &mut MemDisk, rest: &str, out: &mut Transcript) {
    if put_file(alloc, disk, rest, out) {
        out.say("put");
    }
}

/// `show NAME`
pub fn show(disk: &MemDisk, name: &str, out: &mut Transcript) {
    let Some(name) = file_of(name) else {
        return out.say("? no file");
    };
    show_bytes(disk.file(&name), out);
}

/// This call of each bench that is made from here on fails.
pub fn failing(alloc: Global, disk: MemDisk, number: u64, out: &mut Transcript) -> MemDisk {
    match Vec::from_slice(alloc, &[number]) {
        Ok(calls) => disk.failing(Vec::new(alloc), calls),
        Err(_) => {
            out.lose();
            disk
        }
    }
}

fn show_bytes(found: Option<&[u8]>, out: &mut Transcript) {
    match found {
        Some(bytes) => {
            out.show(&bytes.len());
            out.say("\n");
            out.lines(bytes, "|", ":");
        }
        None => out.say("nothing there\n"),
    }
}

/// `folder NAME ..`: files of the folder of a transaction, which ends.
pub fn show_folder(txn: HeldTxn<MemBench>, names: &str, out: &mut Transcript) {
    let bench = txn.into_own().into_bench();
    out.say("ends\n");
    for name in names.split(' ') {
        out.say("- ");
        out.say(name);
        out.say(": ");
        match file_of(name) {
            Some(name) => show_bytes(bench.file(&name), out),
            None => out.say("? no file\n"),
        }
    }
}
