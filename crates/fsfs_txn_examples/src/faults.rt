// Why a call gave nothing.
use fsfs_commit::FinalError;
use fsfs_draft::EditError;
use fsfs_memory::Transcript;
use fsfs_revision::{Refusal, Wrong};
use fsfs_txn::TxnError;

fn say_wrong(wrong: &Wrong, out: &mut Transcript) {
    match wrong {
        Wrong::Refused(Refusal::NoRev { asked, youngest }) => {
            out.tell("NoRev ", asked);
            out.tell(" ", youngest);
        }
        Wrong::Refused(Refusal::Missing { rev }) => out.tell("Missing ", rev),
        Wrong::Refused(Refusal::Small(_)) => out.say("Small"),
        Wrong::Damaged(damage) => {
            out.tell("Corrupt ", &damage.at.rev);
            out.tell(" ", &damage.at.offset);
            out.say(" ");
            out.name(&damage.what);
        }
        Wrong::Delta(at) => {
            out.tell("Delta ", &at.rev);
            out.tell(" ", &at.offset);
        }
    }
}

fn say_edit_error(error: &EditError, out: &mut Transcript) {
    match error {
        EditError::OutOfMemory => out.lose(),
        EditError::DiskFault => out.say("DiskFault"),
        EditError::BenchFault => out.say("BenchFault"),
        EditError::Wrong(wrong) => say_wrong(wrong, out),
        EditError::Lacking => out.say("Lacking"),
    }
}

/// Why a call of a transaction gave nothing.
pub fn say_txn_error(error: &TxnError, out: &mut Transcript) {
    match error {
        TxnError::Spent { .. } => out.say("Spent"),
        TxnError::Fault(error) => say_edit_error(error, out),
    }
}

/// Why no bytes of a revision were written.
pub fn say_final_error(error: &FinalError, out: &mut Transcript) {
    match error {
        FinalError::OutOfMemory => out.lose(),
        FinalError::SinkFault => out.say("SinkFault"),
        FinalError::Lacking => out.say("Lacking"),
        FinalError::PastLimit(limit) => {
            out.say("PastLimit ");
            out.name(limit);
        }
    }
}
