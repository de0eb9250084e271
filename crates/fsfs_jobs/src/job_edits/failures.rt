//! Failures of a transaction's calls, as faults of a job.
ghost use Rattle.std.specs.Prelude.{◌≡◌};
ghost use Rattle.fsfs_txn.specs.declared.txn_error.TxnError.TheVariants as txns;
ghost use Rattle.fsfs_jobs.specs.JobEdits.Answers.{fault_of_failure, fault_of_left};

use fsfs_base::DiskPlace;
use fsfs_cli::{Fault, OutsideFault};
use fsfs_draft::EditError;
use fsfs_txn::TxnError;

fn of_edit(error: EditError) -> Fault
    ensures { result ≡ fault_of_failure (txns.Fault error) }
{
    match error {
        EditError::OutOfMemory => Fault::Memory,
        EditError::DiskFault => Fault::Outside(OutsideFault::Disk(DiskPlace::Read)),
        EditError::BenchFault => Fault::Outside(OutsideFault::Bench),
        EditError::Wrong(wrong) => Fault::from(wrong),
        // Of what was opened before this does not come.
        EditError::Lacking => Fault::Memory,
    }
}

/// The fault of a call that failed.
pub(crate) fn of_failure(error: TxnError) -> Fault
    ensures { result ≡ fault_of_failure error }
{
    match error {
        TxnError::Spent { .. } => Fault::Outside(OutsideFault::Bench),
        TxnError::Fault(error) => of_edit(error),
    }
}

/// The fault of a call that reads no book: only its bench can fail, or memory run out.
pub(crate) fn of_left(error: TxnError) -> Fault
    ensures { result ≡ fault_of_left error }
{
    match error {
        TxnError::Spent { .. } => Fault::Outside(OutsideFault::Bench),
        TxnError::Fault(EditError::BenchFault) => Fault::Outside(OutsideFault::Bench),
        TxnError::Fault(EditError::OutOfMemory) => Fault::Memory,
        // These do not come.
        TxnError::Fault(EditError::DiskFault) => Fault::Memory,
        TxnError::Fault(EditError::Wrong(_)) => Fault::Memory,
        TxnError::Fault(EditError::Lacking) => Fault::Memory,
    }
}
