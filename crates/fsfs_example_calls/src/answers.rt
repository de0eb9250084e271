// How the programs of examples tell what is answered.
use fsfs_base::{DiskPlace, OpenFault, TxnName, put_txn_name};
use fsfs_memory::Transcript;
use fsfs_repo::BeginFault;
use std::alloc::Global;

/// The name of a transaction.
pub fn say_txn(alloc: Global, name: &TxnName, out: &mut Transcript) {
    let mut text = Vec::new(alloc);
    match put_txn_name(&mut text, name) {
        Ok(()) => out.bytes(&text),
        Err(_) => out.lose(),
    }
}

/// A call of a disk failed.
pub fn say_disk_fault(place: DiskPlace, out: &mut Transcript) {
    out.say("DiskFault ");
    out.say(place.word());
}

/// The write lock is stuck.
pub fn say_stuck(place: DiskPlace, out: &mut Transcript) {
    out.say("Stuck ");
    out.say(place.word());
}

/// Why no transaction was begun.
pub fn say_begin_fault(fault: &BeginFault, out: &mut Transcript) {
    match fault {
        BeginFault::NoRev { asked, youngest } => {
            out.tell("NoRev ", asked);
            out.tell(" ", youngest);
        }
        BeginFault::Stuck(place) => say_stuck(*place, out),
        BeginFault::Small(fault) => out.tell("Small TxnCurrent ", &fault.at),
        BeginFault::NamesFull => out.say("NamesFull"),
        BeginFault::Wrong(_) => out.say("Corrupt"),
        BeginFault::DiskFault(place) => say_disk_fault(*place, out),
        BeginFault::BenchFault => out.say("BenchFault"),
        BeginFault::Memory => out.lose(),
    }
}

/// Why a repository was not opened.
pub fn say_open_fault(fault: &OpenFault, out: &mut Transcript) {
    match fault {
        OpenFault::NotRepo => out.say("NotRepo"),
        OpenFault::OtherFormat(number) => out.tell("OtherFormat ", number),
        OpenFault::Linear => out.say("Linear"),
        OpenFault::Small(fault) => {
            out.say("Small ");
            out.name(&fault.file);
            out.tell(" ", &fault.at);
        }
        OpenFault::DiskFault(place) => say_disk_fault(*place, out),
        OpenFault::Memory => out.lose(),
    }
}
