//! Base-36 numbers of at most 13 digits, as node numbers, copy numbers and transaction numbers are.
//!
//! A number is `0`, or digits `0` to `9` and `a` to `z` that don't begin with `0`.
ghost use Rattle.std.specs.Prelude.{◌≡◌, ℕ, ◌+◌, ◌<◌, OnOk, IfOk, IfSome, IsSomeAnd, MatchOption, option_map};
ghost use Rattle.fsfs_base.specs.declared.grammar.base36.TheConstants.{B36_END};
ghost use Rattle.fsfs_base.specs.Grammar.Reading.{Gives};
ghost use Rattle.fsfs_base.specs.Grammar.Numeral.{digits_at, number_at, plain_at, numeral_at, AppendsNumeral, IsPlain, IsNumber};
ghost use Rattle.fsfs_base.specs.Grammar.Relations.{Appends};

use crate::grammar::digits::{digit_char, digit_of};
use std::alloc::{AllocError, Global};

/// One more than the greatest number of 13 digits in base 36, which is 36^13.
pub const B36_END: u128 = 170581728179578208256;

/// A number in base 36, of at most 13 digits.
#[derive(Clone, Copy, Debug, PartialEq, Eq)]
pub struct B36 {
    pub number: u128,
    ghost small: { number < B36_END },
}

/// The number below `B36_END` that ends with this byte, and the bytes behind that;
/// or how many bytes are left at the first byte after which no such number goes on.
#[tactic(auto, unfolding(crate::specs::Grammar::Numeral::number_at, crate::specs::Grammar::Numeral::digits_at))]
fn number(end: u8, bytes: &[u8]) -> Result<(u128, &[u8]), usize>
    ensures { Gives (λ p. (p.0, p.1.now)) result (number_at 36 170581728179578208255 end bytes.now) }
{
    match bytes {
        [] => Err(0),
        [c, rest @ ..] => {
            let d = digit_of(*c) as u128;
            if d < 36 {
                number_rest(end, d, rest)
            } else {
                Err(bytes.len())
            }
        }
    }
}

#[tactic(auto, unfolding(crate::specs::Grammar::Numeral::digits_at))]
fn number_rest(end: u8, number: u128, bytes: &[u8]) -> Result<(u128, &[u8]), usize>
    ensures { Gives (λ p. (p.0, p.1.now)) result (digits_at 36 170581728179578208255 end number bytes.now) }
{
    match bytes {
        [] => Err(0),
        [c, rest @ ..] => {
            if *c == end {
                return Ok((number, rest));
            }
            let d = digit_of(*c) as u128;
            if d < 36 && 0 < number && number <= (B36_END - 1 - d) / 36 {
                number_rest(end, number * 36 + d, rest)
            } else {
                Err(bytes.len())
            }
        }
    }
}

/// The number that ends with this byte, and the bytes behind that;
/// or how many bytes are left at the first byte after which no such number goes on.
pub fn base36_number(end: u8, bytes: &[u8]) -> Result<(B36, &[u8]), usize>
    ensures { Gives (λ p. (p.0.number, p.1.now)) result (number_at 36 170581728179578208255 end bytes.now) }
{
    let (number, rest) = number(end, bytes)?;
    Ok((B36 { number }, rest))
}

#[tactic(auto, unfolding(crate::specs::Grammar::Numeral::numeral_at))]
fn plain_b36(text: &[u8]) -> Option<u128>
    ensures { result ≡ numeral_at 36 170581728179578208255 text.now }
{
    match text {
        [] => None,
        [c, rest @ ..] => {
            let d = digit_of(*c) as u128;
            if d < 36 {
                plain_b36_rest(d, rest)
            } else {
                None
            }
        }
    }
}

#[tactic(auto, unfolding(crate::specs::Grammar::Numeral::plain_at))]
fn plain_b36_rest(first: u128, text: &[u8]) -> Option<u128>
    ensures { result ≡ plain_at 36 170581728179578208255 first text.now }
{
    let mut number = first;
    'digits: for c in text {
        let d = digit_of(*c) as u128;
        if d < 36 && 0 < number && number < B36_END / 36 {
            number = number * 36 + d;
        } else {
            return None;
        }
    }
    Some(number)
}

/// The number that a whole base-36 text is, as a part of a longer reading.
pub fn plain_base36(text: &[u8]) -> Option<B36>
    ensures { option_map (λ b. b.number) result ≡ numeral_at 36 170581728179578208255 text.now }
{
    match plain_b36(text) {
        None => None,
        Some(number) => Some(B36 { number }),
    }
}

/// The number that a base-36 text is; none for any other text.
pub fn read_b36(text: &[u8]) -> Option<B36>
    ensures found { IfSome result (λ b. IsPlain 36 170581728179578208255 text.now b.number) }
    ensures only { (n : ℕ) → IsPlain 36 170581728179578208255 text.now n → IsSomeAnd result (λ b. b.number ≡ n) }
{
    match plain_b36(text) {
        None => None,
        Some(number) => Some(B36 { number }),
    }
}

fn put_digits(out: &mut Vec<u8>, n: u128) -> Result<(), AllocError>
    ensures { OnOk result (AppendsNumeral 36 out.old.items out.new.items n) }
{
    if n < 36 {
        out.push(digit_char(n as u8))?;
        return Ok(());
    }
    put_digits(out, n / 36)?;
    out.push(digit_char((n % 36) as u8))?;
    Ok(())
}

/// Writes the base-36 text of a number at the end.
pub fn put_b36(out: &mut Vec<u8>, b: &B36) -> Result<(), AllocError>
    ensures { OnOk result (AppendsNumeral 36 out.old.items out.new.items b.now.number) }
{
    put_digits(out, b.number)
}

/// Writes a base-36 number and the byte that ends it at the end.
pub fn put_base36(out: &mut Vec<u8>, b: &B36, end: u8) -> Result<(), AllocError>
    ensures { OnOk result (Appends (IsNumber 36 170581728179578208255 end) out.old.items out.new.items b.now.number) }
{
    put_b36(out, b)?;
    out.push(end)?;
    Ok(())
}

/// The base-36 text of a number.
pub fn write_b36(alloc: Global, b: &B36) -> Result<Vec<u8>, AllocError>
    ensures { IfOk result (λ v. IsPlain 36 170581728179578208255 v.items b.now.number) }
{
    let mut out = Vec::new(alloc);
    put_b36(&mut out, b)?;
    Ok(out)
}

/// The next number; none behind thirteen `z`.
pub fn next_b36(b: &B36) -> Option<B36>
    ensures { MatchOption result (b.now.number + 1 ≡ B36_END) (λ n. n.number ≡ b.now.number + 1) }
{
    if b.number + 1 < B36_END {
        Some(B36 {
            number: b.number + 1,
        })
    } else {
        None
    }
}
