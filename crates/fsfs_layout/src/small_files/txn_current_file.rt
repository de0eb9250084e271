//! `db/txn-current`, the number that the next transaction's name gets.
ghost use Rattle.std.specs.Prelude.{◌≡◌, ℕ, IfOk, IfErr, IsOkAnd};
ghost use Rattle.fsfs_base.specs.Grammar.Reading.{Gives};
ghost use Rattle.fsfs_layout.specs.Small.{IsBase36Line, IsFaultOf};
ghost use Rattle.fsfs_layout.specs.Reading.{base36_line_at};

use fsfs_base::base36::{base36_number, put_base36};
use fsfs_base::{B36, SmallFault, SmallFile};
use std::alloc::{AllocError, Global};

fn base36_line(bytes: &[u8]) -> Result<B36, usize>
    ensures { Gives (λ b. b.number) result (base36_line_at bytes.now) }
{
    let (number, rest) = base36_number(b'\n', bytes)?;
    if !rest.is_empty() {
        return Err(rest.len());
    }
    Ok(number)
}

/// The number that the next transaction's name gets, from the bytes of `db/txn-current`:
/// a base-36 number of at most 13 digits and a newline.
pub fn read_txn_current(bytes: &[u8]) -> Result<B36, SmallFault>
    ensures found { IfOk result (λ b. IsBase36Line bytes.now b.number) }
    ensures only { (n : ℕ) → IsBase36Line bytes.now n → IsOkAnd result (λ b. b.number ≡ n) }
    ensures fault { IfErr result (IsFaultOf SmallFile.TxnCurrent IsBase36Line bytes.now) }
{
    match base36_line(bytes) {
        Ok(number) => Ok(number),
        Err(left) => Err(SmallFault {
            file: SmallFile::TxnCurrent,
            at: bytes.len() - left,
        }),
    }
}

/// The bytes of `db/txn-current` for this number.
pub fn write_txn_current(alloc: Global, number: &B36) -> Result<Vec<u8>, AllocError>
    ensures { IfOk result (λ v. IsBase36Line v.items number.now.number) }
{
    let mut out = Vec::new(alloc);
    put_base36(&mut out, number, b'\n')?;
    Ok(out)
}
