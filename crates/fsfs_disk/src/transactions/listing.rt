// Which transactions there are.
ghost use Rattle.std.specs.Prelude.{◌≡◌, ◌≤◌, ◌∷◌, [], map, IfOk, IfSome, OnOk, IsErrOf, MatchOption};
ghost use Rattle.std.specs.List.{flat_map};
ghost use Rattle.fsfs_base.specs.Failures.{Rose};
ghost use Rattle.fsfs_disk.specs.Trace.{labels_now};
ghost use Rattle.fsfs_disk.specs.Transactions.Txns.{text_of, AreTxns};
ghost use Rattle.fsfs_disk.specs.Transactions.Entries.{name_at};

use crate::{Disk, ListFault};
use fsfs_base::{Name, TxnName, plain_txn_name};
use fsfs_layout::{OnlyFile, txn_entry};
use std::alloc::{AllocError, Global};

// The length of `.txn`.
const ENDING: usize = 4;

// The transaction whose folder has this name, if it is one's.
fn txn_of(entry: &Name) -> Option<TxnName>
    ensures { MatchOption result (name_at entry.now ≡ []) (λ name. name_at entry.now ≡ text_of name ∷ []) }
{
    let text = entry.as_str().as_bytes();
    match plain_txn_name(&text[..text.len().saturating_sub(ENDING)]) {
        Some(name) if txn_entry(&name).is(entry) => Some(name),
        _ => None,
    }
}

/// The transactions whose folders have these names; other names are passed over.
pub fn txns_among(alloc: Global, entries: &[Name]) -> Result<Vec<TxnName>, AllocError>
    ensures { IfOk result (λ names. map text_of names.items ≡ flat_map name_at entries.now) }
{
    let mut names = Vec::new(alloc);
    for entry in entries {
        if let Some(name) = txn_of(entry) {
            names.push(name)?;
        }
    }
    Ok(names)
}

/// The names of a repository's transactions, in the order of their bytes: one for each folder in `db/transactions` whose name is
/// that of a transaction and `.txn`. What else is there is passed over.
pub fn txns<D: Disk>(alloc: Global, disk: &mut D) -> Result<Vec<TxnName>, ListFault>
    ensures names { IfSome (D.trace disk.old) (λ t. IfOk result (λ names. AreTxns (labels_now t) (map text_of names.items))) }
    ensures same { D.trace disk.new ≡ D.trace disk.old }
    ensures mounted { D.mount_path disk.new ≡ D.mount_path disk.old }
    ensures right { D.may_write disk.new ≡ D.may_write disk.old }
    ensures benches { D.bench_faults disk.new ≡ D.bench_faults disk.old }
    ensures later { D.faults disk.old ≤ D.faults disk.new }
    ensures kept { OnOk result (D.faults disk.new ≡ D.faults disk.old) }
    ensures failed { IsErrOf result ListFault.Failed → Rose (D.faults disk.old) (D.faults disk.new) }
    ensures memory { IsErrOf result ListFault.Memory → D.faults disk.new ≡ D.faults disk.old }
{
    let entries = disk.list(alloc, &OnlyFile::Transactions.name())?;
    match txns_among(alloc, &entries) {
        Ok(names) => Ok(names),
        Err(_) => Err(ListFault::Memory),
    }
}
