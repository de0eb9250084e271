//! Decimal numbers: `0`, or digits that don't begin with `0`.
ghost use Rattle.std.specs.Prelude.{◌≡◌, ℕ, OnOk, IfOk, IfSome, Some};
ghost use Rattle.std.specs.Fmt.{decimal as printed_decimal};
ghost use Rattle.fsfs_base.specs.Grammar.Reading.{Gives};
ghost use Rattle.fsfs_base.specs.Grammar.Numeral.{digits_at, number_at, plain_at, numeral_at, AppendsNumeral, IsPlain, IsNumber};
ghost use Rattle.fsfs_base.specs.Grammar.Relations.{Appends};

use crate::grammar::digits::digit_of;
use std::alloc::{AllocError, Global};

/// The decimal number up to the limit that ends with this byte, and the bytes behind that;
/// or how many bytes are left at the first byte after which no such number goes on.
#[tactic(auto, unfolding(crate::specs::Grammar::Numeral::number_at, crate::specs::Grammar::Numeral::digits_at))]
pub fn decimal(limit: u64, end: u8, bytes: &[u8]) -> Result<(u64, &[u8]), usize>
    ensures { Gives (λ p. (p.0, p.1.now)) result (number_at 10 limit end bytes.now) }
{
    match bytes {
        [] => Err(0),
        [c, rest @ ..] => {
            let d = digit_of(*c);
            if d < 10 && d <= limit {
                decimal_rest(limit, end, d, rest)
            } else {
                Err(bytes.len())
            }
        }
    }
}

#[tactic(auto, unfolding(crate::specs::Grammar::Numeral::digits_at))]
fn decimal_rest(limit: u64, end: u8, number: u64, bytes: &[u8]) -> Result<(u64, &[u8]), usize>
    ensures { Gives (λ p. (p.0, p.1.now)) result (digits_at 10 limit end number bytes.now) }
{
    match bytes {
        [] => Err(0),
        [c, rest @ ..] => {
            if *c == end {
                return Ok((number, rest));
            }
            let d = digit_of(*c);
            if d < 10 && 0 < number && d <= limit && number <= (limit - d) / 10 {
                decimal_rest(limit, end, number * 10 + d, rest)
            } else {
                Err(bytes.len())
            }
        }
    }
}

/// The number up to the limit that a decimal text is.
#[tactic(auto, unfolding(crate::specs::Grammar::Numeral::numeral_at))]
pub fn plain_decimal(limit: u64, text: &[u8]) -> Option<u64>
    ensures { result ≡ numeral_at 10 limit text.now }
{
    match text {
        [] => None,
        [c, rest @ ..] => {
            let d = digit_of(*c);
            if d < 10 && d <= limit {
                plain_decimal_rest(limit, d, rest)
            } else {
                None
            }
        }
    }
}

#[tactic(auto, unfolding(crate::specs::Grammar::Numeral::plain_at))]
fn plain_decimal_rest(limit: u64, first: u64, text: &[u8]) -> Option<u64>
    ensures { result ≡ plain_at 10 limit first text.now }
{
    let mut number = first;
    'digits: for c in text {
        let d = digit_of(*c);
        if d < 10 && 0 < number && d <= limit && number <= (limit - d) / 10 {
            number = number * 10 + d;
        } else {
            return None;
        }
    }
    Some(number)
}

/// The number that a decimal text is, up to 2^64 - 1; none for any other text.
pub fn read_dec(text: &[u8]) -> Option<u64>
    ensures found { IfSome result (IsPlain 10 18446744073709551615 text.now) }
    ensures only { (n : ℕ) → IsPlain 10 18446744073709551615 text.now n → result ≡ Some n }
{
    plain_decimal(u64::MAX, text)
}

/// Writes the decimal text of a number at the end.
pub fn put_dec(out: &mut Vec<u8>, n: u64) -> Result<(), AllocError>
    ensures { OnOk result (AppendsNumeral 10 out.old.items out.new.items n) }
{
    if n < 10 {
        out.push(b'0' + n as u8)?;
        return Ok(());
    }
    put_dec(out, n / 10)?;
    out.push(b'0' + (n % 10) as u8)?;
    Ok(())
}

/// Writes a decimal number and the byte that ends it at the end.
pub fn put_decimal(out: &mut Vec<u8>, n: u64, end: u8) -> Result<(), AllocError>
    ensures { OnOk result (Appends (IsNumber 10 18446744073709551615 end) out.old.items out.new.items n) }
{
    put_dec(out, n)?;
    out.push(end)?;
    Ok(())
}

/// The decimal text of a number, as `format!` prints it too.
pub fn write_dec(alloc: Global, n: u64) -> Result<Vec<u8>, AllocError>
    ensures grammar { IfOk result (λ v. IsPlain 10 18446744073709551615 v.items n) }
    ensures printed { IfOk result (λ v. v.items ≡ printed_decimal n) }
{
    let mut out = Vec::new(alloc);
    put_dec(&mut out, n)?;
    Ok(out)
}
