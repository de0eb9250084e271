// Printing what the small files of a repository say, and the names of its transactions.
ghost use Rattle.std.specs.Prelude.{◌++◌, ℕ, List, codes, map};
ghost use Rattle.fsfs_base.specs.Output.{Prints};
ghost use Rattle.fsfs_top.specs.Command.{fault_of};
ghost use Rattle.fsfs_top.specs.Looks.{revision_line, uuid_line, PrintsLine};
ghost use Rattle.fsfs_top.specs.PackAnswers.{packed_line};
ghost use Rattle.fsfs_top.specs.Scenes.{SinkScene};
ghost use Rattle.fsfs_top.specs.TxnAnswers.{names_text};
ghost use Rattle.fsfs_disk.specs.Transactions.Txns.{text_of};

use arrayvec::ArrayString;
use fsfs_base::{Failed, RevNum, Sink, TxnName, print};
use fsfs_cli::{Fault, OutsideFault, txn_text};
use fsfs_layout::Uuid;
use itoa::Buffer;

/// Writes a revision's number and the end of the line.
pub fn print_revision<S: Sink>(sink: &mut S, rev: RevNum) -> Result<(), Failed>
    ensures printed { Prints (S.written sink.old) (S.written sink.new) (revision_line rev) (S.faults sink.old) (S.faults sink.new) result }
{
    let mut line = ArrayString::<11>::new();
    line.push_str(Buffer::new().format(rev.get()));
    line.push_str("\n");
    print(sink, line.as_str().as_bytes())
}

/// Writes an identifier and the end of the line.
pub fn print_uuid<S: Sink>(sink: &mut S, uuid: &Uuid) -> Result<(), Failed>
    ensures printed { Prints (S.written sink.old) (S.written sink.new) (uuid_line uuid.now) (S.faults sink.old) (S.faults sink.new) result }
{
    print(sink, uuid.as_bytes())?;
    print(sink, b"\n")
}

/// Writes how many shards were packed, and the end of the line.
pub(crate) fn print_packed<S: Sink>(sink: &mut S, shards: u64) -> Result<(), Failed>
    ensures printed { Prints (S.written sink.old) (S.written sink.new) (packed_line shards) (S.faults sink.old) (S.faults sink.new) result }
{
    let mut line = ArrayString::<28>::new();
    line.push_str("packed ");
    line.push_str(Buffer::new().format(shards));
    line.push_str("\n");
    print(sink, line.as_str().as_bytes())
}

// Writes a transaction's name and the end of the line.
fn print_txn<S: Sink>(sink: &mut S, txn: &TxnName) -> Result<(), Failed>
    ensures printed { Prints (S.written sink.old) (S.written sink.new) (text_of txn.now ++ codes "\n") (S.faults sink.old) (S.faults sink.new) result }
{
    print(sink, txn_text(txn).as_str().as_bytes())?;
    print(sink, b"\n")
}

/// Writes the names of transactions, a line for each.
pub(crate) fn print_txns<S: Sink>(sink: &mut S, txns: &[TxnName]) -> Result<(), Failed>
    ensures printed { Prints (S.written sink.old) (S.written sink.new) (names_text (map text_of txns.now)) (S.faults sink.old) (S.faults sink.new) result }
{
    for txn in txns {
        print_txn(sink, txn)?;
    }
    Ok(())
}

// The fault of a line that was printed so.
pub(crate) fn line_fault(printed: Result<(), Failed>) -> Result<(), Fault>
    ensures { (line : List ℕ) (old new : SinkScene) → Prints old.written new.written line old.faults new.faults printed → PrintsLine line old new (fault_of result) }
{
    match printed {
        Ok(()) => Ok(()),
        Err(_) => Err(Fault::Outside(OutsideFault::Write)),
    }
}
