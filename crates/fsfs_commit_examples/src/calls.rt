// Calls of one owner over a disk in memory, and what they answer.
use crate::answers::{say_create_fault, say_txns};
use fsfs_base::read_txn_name;
use fsfs_create::create;
use fsfs_disk::{rmtxn, txns};
use fsfs_layout::Layout;
use fsfs_memory::{MemDisk, Transcript, file_of, put_file};
use std::alloc::Global;
use uuid::Builder;

/// 2024-01-02T03:04:05.678901Z
pub const MOMENT: u64 = 1_704_164_645_678_901;

/// Makes a repository, with two revisions in a shard.
pub fn make(alloc: Global, disk: &mut MemDisk, out: &mut Transcript) {
    let identifier = Builder::from_random_bytes([0; 16]).into_uuid();
    match create(alloc, disk, identifier, Layout::sharded(2), MOMENT) {
        Ok(()) => out.say("created"),
        Err(fault) => say_create_fault(&fault, out),
    }
}

/// Lists the transactions.
pub fn list(alloc: Global, disk: &mut MemDisk, out: &mut Transcript) {
    match txns(alloc, disk) {
        Ok(names) => say_txns(alloc, &names, out),
        Err(_) => out.say("failed"),
    }
}

/// `TXN`: removes a transaction.
pub fn remove(disk: &mut MemDisk, word: &str, out: &mut Transcript) {
    let Some(name) = read_txn_name(word.as_bytes()) else {
        return out.say("? no transaction");
    };
    match rmtxn(disk, &name) {
        Ok(true) => out.say("removed"),
        Ok(false) => {
            out.say("NoTxn ");
            out.say(word);
        }
        Err(_) => out.say("failed"),
    }
}

/// `NAME BYTES`: puts a file.
pub fn put(alloc: Global, disk: &mut MemDisk, rest: &str, out: &mut Transcript) {
    if put_file(alloc, disk, rest, out) {
        out.say("put");
    }
}

/// `NAME`: the bytes of a file.
pub fn show(disk: &MemDisk, name: &str, out: &mut Transcript) {
    let Some(name) = file_of(name) else {
        return out.say("? no file");
    };
    match disk.file(&name) {
        Some(bytes) => out.bytes(bytes),
        None => out.say("nothing there"),
    }
}
