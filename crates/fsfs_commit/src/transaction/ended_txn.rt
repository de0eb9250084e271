//! What is left of a transaction whose bytes were written.
ghost use Rattle.std.specs.Prelude.{◌≡◌, option_map, OnOk};
ghost use Rattle.fsfs_base.specs.Failures.{HasCause};
ghost use Rattle.fsfs_disk.specs.Benches.{appended, IsFirmFile};

use fsfs_base::{Failed, Name};
use fsfs_disk::Bench;

/// A bench, and its file that has the bytes of the revision: those of the transaction's texts, and what was written behind them.
#[derive(Drop)]
pub(crate) struct EndedTxn<B: Bench> {
    pub(crate) bench: B,
    pub(crate) file: Name,
}

/// Writes bytes behind those that a file has, and makes all of it firm.
pub(crate) fn end_file<B: Bench>(bench: &mut B, file: &Name, text: &[u8]) -> Result<(), Failed>
    ensures written { OnOk result (B.contents bench.new ≡ option_map (appended file.now text.now) (B.contents bench.old)) }
    ensures firm { OnOk result (IsFirmFile (B.contents bench.new) (B.firm_to bench.new file.now) file.now) }
    ensures cause { HasCause (B.faults bench.old) (B.faults bench.new) result }
{
    match bench.append(file, text) {
        Ok(()) => {}
        Err(failed) => return Err(failed),
    }
    match bench.firm(file) {
        Ok(()) => Ok(()),
        Err(failed) => Err(failed),
    }
}
