//! `manifest`, where each revision of a packed shard begins in its pack.
ghost use Rattle.std.specs.Prelude.{◌≡◌, ◌≤◌, ◌<◌, ◌+◌, ◌*◌, ◌-◌, ℕ, List, length, slice_index, IfOk, IfErr, MatchResult, IsTrue};
ghost use Rattle.std.specs.List.{flat_map};
ghost use Rattle.fsfs_base.specs.Grammar.Numeral.{digit};
ghost use Rattle.fsfs_base.specs.Grammar.Reading.{Gives};
ghost use Rattle.fsfs_base.specs.Grammar.ReadErrors.{GivesOrMemory};
ghost use Rattle.fsfs_layout.specs.Layouts.{shard_size as size_of};
ghost use Rattle.fsfs_layout.specs.Manifest.{offset_line, DontFall, IsManifest, IsOutOfMemory, IsManifestError};
ghost use Rattle.fsfs_layout.specs.ManifestReading.{reaches_at, starts_at, follows_at, offset_rest_at, offset_at, lines_at, manifest_at};

use crate::layout::Layout;
use fsfs_base::decimals::{decimal, put_decimal};
use fsfs_base::pieces::text;
use fsfs_base::{ReadError, SmallFault, SmallFile, digit_of};
use std::alloc::{AllocError, Global};

/// A manifest was not read.
#[derive(Clone, Copy)]
pub enum ManifestError {
    OutOfMemory,
    Fault(SmallFault),
}

/// The greatest number of 64 bits has so many digits.
const DIGITS: u32 = 20;

/// Whether one of the numbers from `least` to `greatest`, or one with up to so many digits behind one of them,
/// is a number of 64 bits from `low` on.
#[tactic(auto, unfolding(crate::specs::ManifestReading::reaches_at))]
fn reaches(digits: u32, low: u64, least: u128, greatest: u128) -> bool
    ensures reaches { result ≡ reaches_at 18446744073709551615 digits low least greatest }
    ensures fits { IsTrue result → least ≤ 18446744073709551615 }
{
    if digits == 0 || least > u64::MAX as u128 {
        return false;
    }
    if low as u128 <= greatest {
        return true;
    }
    reaches(digits - 1, low, least * 10, greatest * 10 + 9)
}

#[tactic(auto, unfolding(crate::specs::ManifestReading::starts_at))]
fn starts(low: u64, c: u8) -> bool
    ensures { result ≡ starts_at 18446744073709551615 20 low c }
{
    let first = digit_of(c);
    if first >= 10 {
        return false;
    }
    if first == 0 {
        return low == 0;
    }
    reaches(DIGITS, low, first as u128, first as u128)
}

/// The number with one digit more, where a number from `low` on begins so.
#[tactic(auto, unfolding(crate::specs::ManifestReading::follows_at))]
fn follows(low: u64, number: u64, c: u8) -> bool
    ensures follows { result ≡ follows_at 18446744073709551615 20 low number c }
    ensures fits { IsTrue result → number * 10 + digit c ≤ 18446744073709551615 }
{
    let next = number as u128 * 10 + digit_of(c) as u128;
    digit_of(c) < 10 && 0 < number && reaches(DIGITS, low, next, next)
}

#[tactic(auto, unfolding(crate::specs::ManifestReading::offset_rest_at))]
fn slow_offset_rest(low: u64, number: u64, bytes: &[u8]) -> Result<(u64, &[u8]), usize>
    ensures { Gives (λ p. (p.0, p.1.now)) result (offset_rest_at 18446744073709551615 20 low number bytes.now) }
{
    match bytes {
        [] => Err(0),
        [c, rest @ ..] => {
            if *c == b'\n' {
                if low <= number {
                    return Ok((number, rest));
                }
                return Err(bytes.len());
            }
            if follows(low, number, *c) {
                slow_offset_rest(low, number * 10 + digit_of(*c), rest)
            } else {
                Err(bytes.len())
            }
        }
    }
}

/// The offset of a line, from `low` on, and what stands behind the line; or how many bytes are left at the first byte that
/// no such offset has there.
#[tactic(auto, unfolding(crate::specs::ManifestReading::offset_at))]
fn slow_offset(low: u64, bytes: &[u8]) -> Result<(u64, &[u8]), usize>
    ensures { Gives (λ p. (p.0, p.1.now)) result (offset_at 18446744073709551615 20 low bytes.now) }
{
    match bytes {
        [] => Err(0),
        [c, rest @ ..] => {
            if starts(low, *c) {
                slow_offset_rest(low, digit_of(*c), rest)
            } else {
                Err(bytes.len())
            }
        }
    }
}

/// The same, looking at each digit once where the line has such an offset.
fn offset(low: u64, bytes: &[u8]) -> Result<(u64, &[u8]), usize>
    ensures { Gives (λ p. (p.0, p.1.now)) result (offset_at 18446744073709551615 20 low bytes.now) }
{
    match decimal(u64::MAX, b'\n', bytes) {
        Ok((number, rest)) => {
            if low <= number {
                return Ok((number, rest));
            }
            slow_offset(low, bytes)
        }
        Err(_) => slow_offset(low, bytes),
    }
}

/// The offsets of a shard of this size, and what stands behind them.
fn lines(alloc: Global, shard_size: u32, bytes: &[u8]) -> Result<(Vec<u64>, &[u8]), ReadError>
    requires { 0 < shard_size }
    ensures { GivesOrMemory (λ p. (p.0.items, p.1.now)) result (lines_at shard_size bytes.now) }
{
    let mut rest = text(b"0\n", bytes)?;
    let mut found = Vec::new(alloc);
    found.push(0)?;
    let mut low = 0;
    for _ in 0..shard_size - 1 {
        let (next, after) = offset(low, rest)?;
        found.push(next)?;
        low = next;
        rest = after;
    }
    Ok((found, rest))
}

fn manifest(alloc: Global, shard_size: u32, bytes: &[u8]) -> Result<Vec<u64>, ReadError>
    requires { 0 < shard_size }
    ensures { GivesOrMemory (λ v. v.items) result (manifest_at shard_size bytes.now) }
{
    let (found, rest) = lines(alloc, shard_size, bytes)?;
    if !rest.is_empty() {
        return Err(ReadError::Left(rest.len()));
    }
    Ok(found)
}

/// Where each revision of a shard begins in its pack, from the bytes of the shard's `manifest`: a line for each revision,
/// with a decimal number of 64 bits; the first is 0, and none is below the one before.
pub fn read_manifest(
    alloc: Global,
    bytes: &[u8],
    shard: u32,
    layout: Layout,
) -> Result<Vec<u64>, ManifestError>
    ensures found { IfOk result (λ v. IsManifest (size_of layout) bytes.now v.items) }
    ensures only { (offsets : List ℕ) → IsManifest (size_of layout) bytes.now offsets → MatchResult result (λ v. v.items ≡ offsets) IsOutOfMemory }
    ensures fault { IfErr result (IsManifestError shard (size_of layout) bytes.now) }
{
    match manifest(alloc, layout.shard_size(), bytes) {
        Ok(found) => Ok(found),
        Err(ReadError::OutOfMemory) => Err(ManifestError::OutOfMemory),
        Err(ReadError::Left(left)) => Err(ManifestError::Fault(SmallFault {
            file: SmallFile::Manifest(shard),
            at: bytes.len() - left,
        })),
    }
}

/// The bytes of the manifest of a shard whose revisions begin at these offsets.
pub fn write_manifest(alloc: Global, offsets: &[u64]) -> Result<Vec<u8>, AllocError>
    requires filled { 0 < length offsets.now }
    requires first { slice_index offsets.now 0 ≡ 0 }
    requires rising { DontFall offsets.now }
    ensures grammar { IfOk result (λ v. IsManifest (length offsets.now) v.items offsets.now) }
    ensures text { IfOk result (λ v. v.items ≡ flat_map offset_line offsets.now) }
{
    let mut out = Vec::new(alloc);
    for offset in offsets {
        put_decimal(&mut out, *offset, b'\n')?;
    }
    Ok(out)
}
