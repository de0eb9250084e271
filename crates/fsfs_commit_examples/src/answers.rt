// What is answered.
use fsfs_base::{CreateFault, TxnName};
use fsfs_draft::EditError;
use fsfs_example_calls::{say_disk_fault, say_stuck, say_txn};
use fsfs_memory::Transcript;
use fsfs_repo::{CommitBar, TxnError};
use fsfs_revision::Wrong;
use std::alloc::Global;

pub fn say_txns(alloc: Global, names: &[TxnName], out: &mut Transcript) {
    out.say("listed");
    for name in names {
        out.say(" ");
        say_txn(alloc, name, out);
    }
}

pub fn say_create_fault(fault: &CreateFault, out: &mut Transcript) {
    match fault {
        CreateFault::AlreadyRepo => out.say("AlreadyRepo"),
        CreateFault::DiskFault(place) => say_disk_fault(*place, out),
        CreateFault::Memory => out.lose(),
    }
}

fn say_wrong(wrong: &Wrong, out: &mut Transcript) {
    match wrong {
        Wrong::Damaged(damage) => out.tell("Corrupt ", &damage.at.rev),
        _ => out.say("? wrong"),
    }
}

/// Why an edit was not made.
pub fn say_edit_error(error: &TxnError, out: &mut Transcript) {
    match error {
        TxnError::Spent { .. } => out.say("Spent"),
        TxnError::Fault(EditError::OutOfMemory) => out.lose(),
        TxnError::Fault(EditError::DiskFault) => out.say("DiskFault Read"),
        TxnError::Fault(EditError::BenchFault) => out.say("BenchFault"),
        TxnError::Fault(EditError::Wrong(wrong)) => say_wrong(wrong, out),
        TxnError::Fault(EditError::Lacking) => out.say("Lacking"),
    }
}

/// Why a commit handed its transaction back.
pub fn say_bar(bar: &CommitBar, out: &mut Transcript) {
    match bar {
        CommitBar::Conflict { path, head } => {
            out.tell("conflict r", head);
            out.tell(" ", path);
        }
        CommitBar::RevsFull => out.say("RevsFull"),
        CommitBar::Stuck(place) => say_stuck(*place, out),
        CommitBar::Wrong(wrong) => say_wrong(wrong, out),
        CommitBar::PastLimit(limit) => {
            out.say("PastLimit ");
            out.name(limit);
        }
        CommitBar::Lacking => out.say("Lacking"),
        CommitBar::Memory => out.lose(),
    }
}
