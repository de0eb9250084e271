//! The names of transactions.
ghost use Rattle.std.specs.Prelude.{◌≡◌, ℕ, IfSome, IsSomeAnd, OnOk, IfOk, option_map};
ghost use Rattle.fsfs_base.specs.Grammar.Relations.{Appends};
ghost use Rattle.fsfs_base.specs.Fields.TxnNames.{IsTxnName, txn_name_at};

use crate::B36;
use crate::fields::rev_num::RevNum;
use crate::grammar::base36::{plain_base36, put_b36};
use crate::grammar::cuts::cut_at;
use std::alloc::AllocError;

/// A transaction's name: the revision that it began on, a dash, and a number in base 36 that no other transaction
/// of the repository had. The first in a new repository is `0-0`. (The libsvn_fs_fs structure file.)
#[derive(Clone, Copy, Debug, PartialEq, Eq)]
pub struct TxnName {
    pub base: RevNum,
    pub number: B36,
}

/// The name as a part of a longer reading.
pub fn plain_txn_name(text: &[u8]) -> Option<TxnName>
    ensures { option_map (λ t. (t.base, t.number.number)) result ≡ txn_name_at text.now }
{
    let (front, rest) = cut_at(b'-', text)?;
    let base = RevNum::plain(front)?;
    let number = plain_base36(rest)?;
    Some(TxnName { base, number })
}

/// The transaction's name that a text is; none for any other text.
pub fn read_txn_name(text: &[u8]) -> Option<TxnName>
    ensures found { IfSome result (λ t. IsTxnName text.now (t.base, t.number.number)) }
    ensures only { (base number : ℕ) → IsTxnName text.now (base, number) → IsSomeAnd result (λ t. (t.base ≡ base) × (t.number.number ≡ number)) }
{
    plain_txn_name(text)
}

/// Writes a transaction's name at the end.
pub fn put_txn_name(out: &mut Vec<u8>, name: &TxnName) -> Result<(), AllocError>
    ensures { OnOk result (Appends IsTxnName out.old.items out.new.items (name.now.base, name.now.number.number)) }
{
    name.base.put(out)?;
    out.push(b'-')?;
    put_b36(out, &name.number)?;
    Ok(())
}
