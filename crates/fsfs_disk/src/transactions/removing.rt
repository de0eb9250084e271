// Transactions are removed.
ghost use Rattle.std.specs.Prelude.{◌≡◌, ◌≤◌, ◌⊎◌, Some, map, option_map, IfOk, IfSome, IfErr, OnOk, OnErr, IsTrue};
ghost use Rattle.fsfs_base.specs.Failures.{HasCause, Rose};
ghost use Rattle.fsfs_disk.specs.Labels.{has_label, without_label};
ghost use Rattle.fsfs_disk.specs.Trace.{DropLabel, files_now, labels_now, FailsAt};
ghost use Rattle.fsfs_disk.specs.Crash.{AllImages, AreAll, Leaves, LeavesBoth};
ghost use Rattle.fsfs_disk.specs.Transactions.Txns.{pair_of, txn_label};
ghost use Rattle.fsfs_disk.specs.Transactions.Removals.{HasLabels, IsImageOf, WasKept, Removes, IfFailed};

use crate::{Disk, Label};
use fsfs_base::{Failed, TxnName};
use thiserror::Error;

/// Why transactions weren't all removed.
#[derive(Clone, Copy, Debug, Error)]
pub enum RemovalFault {
    /// There is none of this name.
    #[error("there is no such transaction")]
    NoTxn(TxnName),
    /// The disk failed, and its count of faults rose.
    #[error("the disk failed")]
    Failed,
}

/// Removes a transaction: what its folder holds, its prototype revision file and that file's lock, and then the folder. `false`:
/// there is none of this name.
pub fn rmtxn<D: Disk>(disk: &mut D, name: &TxnName) -> Result<bool, Failed>
    requires { IsTrue (D.may_write disk.old) }
    ensures there { IfSome (D.trace disk.old) (λ t. IfOk result (λ there. there ≡ has_label (txn_label (pair_of name.now)) (labels_now t))) }
    // Its label goes, and no other.
    ensures done { OnOk result (HasLabels (without_label (txn_label (pair_of name.now))) (D.trace disk.old) (D.trace disk.new)) }
    // A failure leaves all labels, or all but this one.
    ensures failed { OnErr result (HasLabels (λ labels. labels) (D.trace disk.old) (D.trace disk.new) ⊎ HasLabels (without_label (txn_label (pair_of name.now))) (D.trace disk.old) (D.trace disk.new)) }
    // It is one operation of the disk.
    ensures ended { FailsAt (DropLabel (txn_label (pair_of name.now))) (D.trace disk.old) (D.trace disk.new) }
    ensures files { option_map files_now (D.trace disk.new) ≡ option_map files_now (D.trace disk.old) }
    ensures mounted { D.mount_path disk.new ≡ D.mount_path disk.old }
    ensures right { D.may_write disk.new ≡ D.may_write disk.old }
    ensures benches { D.bench_faults disk.new ≡ D.bench_faults disk.old }
    ensures cause { HasCause (D.faults disk.old) (D.faults disk.new) result }
{
    disk.drop_bench(&Label::Txn(*name), None)
}

/// Removes transactions in the order given, up to the first of which there is none, or at which the disk fails.
pub fn rmtxns<D: Disk>(disk: &mut D, names: &[TxnName]) -> Result<(), RemovalFault>
    requires { IsTrue (D.may_write disk.old) }
    ensures removed { Removes (map pair_of names.now) (D.trace disk.old) (D.trace disk.new) result }
    ensures files { option_map files_now (D.trace disk.new) ≡ option_map files_now (D.trace disk.old) }
    // A crash now, or at any moment of it, leaves files that one before it could have left, and no label that wasn't kept then.
    ensures images { AllImages (D.trace disk.new) (IsImageOf (D.trace disk.old)) }
    ensures any_moment { Leaves (D.trace disk.old) (D.trace disk.new) (IsImageOf (D.trace disk.old)) }
    ensures labels { LeavesBoth (D.trace disk.old) (D.trace disk.new) (λ m ls. AreAll (WasKept (D.trace disk.old)) ls) }
    ensures mounted { D.mount_path disk.new ≡ D.mount_path disk.old }
    ensures right { D.may_write disk.new ≡ D.may_write disk.old }
    ensures benches { D.bench_faults disk.new ≡ D.bench_faults disk.old }
    ensures later { D.faults disk.old ≤ D.faults disk.new }
    ensures kept { OnOk result (D.faults disk.new ≡ D.faults disk.old) }
    ensures failed { IfErr result (IfFailed (Rose (D.faults disk.old) (D.faults disk.new)) (D.faults disk.new ≡ D.faults disk.old)) }
{
    for name in names {
        match rmtxn(disk, name) {
            Ok(true) => {}
            Ok(false) => return Err(RemovalFault::NoTxn(*name)),
            Err(_) => return Err(RemovalFault::Failed),
        }
    }
    Ok(())
}
