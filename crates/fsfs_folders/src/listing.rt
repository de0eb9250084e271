// The folders of transactions among others.
ghost use Rattle.std.specs.Prelude.{◌≡◌, ◌++◌, ◌∷◌, [], cond, IfOk, OnOk};
ghost use Rattle.fsfs_folders.specs.TxnEntries.{is_txn_entry as entry, txns_among as among};

use fsfs_base::{Name, plain_txn_name};
use fsfs_layout::txn_entry;
use std::alloc::{AllocError, Global};

// The length of `.txn`.
const ENDING: usize = 4;

// Whether a name in the folder of transactions is one of a transaction's folder.
fn is_txn_entry(name: &Name) -> bool
    ensures { result ≡ entry name.now }
{
    let text = name.as_str().as_bytes();
    match plain_txn_name(&text[..text.len().saturating_sub(ENDING)]) {
        Some(txn) => txn_entry(&txn).is(name),
        None => false,
    }
}

// Adds the name, if it is one of a transaction's folder.
fn push_txn(found: &mut Vec<Name>, name: &Name) -> Result<(), AllocError>
    ensures { OnOk result (found.new.items ≡ found.old.items ++ cond (entry name.now) (name.now ∷ []) []) }
{
    if !is_txn_entry(name) {
        return Ok(());
    }
    found.push(name.copy())?;
    Ok(())
}

/// Those of some names in the folder of transactions that are a transaction's folder's.
pub fn txns_among(alloc: Global, names: &[Name]) -> Result<Vec<Name>, AllocError>
    ensures { IfOk result (λ found. found.items ≡ among names.now) }
{
    let mut found = Vec::new(alloc);
    for name in names {
        push_txn(&mut found, name)?;
    }
    Ok(found)
}
