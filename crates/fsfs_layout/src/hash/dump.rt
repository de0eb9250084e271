//! Reading a whole dump.
ghost use Rattle.std.specs.Prelude.{◌≡◌, ◌+◌, ℕ, suc, length, List, [], IfOk, IfErr, MatchResult};
ghost use Rattle.std.specs.BTreeMap.{IsFromIterResult};
ghost use Rattle.std.specs.Cmp.Lexicographic.{slice_cmp};
ghost use Rattle.std.specs.Ordering.{nat_cmp};
ghost use Rattle.fsfs_base.specs.Grammar.Relations.{begins};
ghost use Rattle.fsfs_base.specs.Grammar.Reading.{Gives};
ghost use Rattle.fsfs_base.specs.Grammar.ReadErrors.{GivesOrMemory};
ghost use Rattle.fsfs_layout.specs.Hash.Reading.{field_at, entry_at, entries_at, views, dump_at};
ghost use Rattle.fsfs_layout.specs.Hash.Dump.{put_all, IsDump};
ghost use Rattle.fsfs_layout.specs.Hash.Fault.{IsOutOfMemory, IsExact};

use crate::hash::error::{HashError, HashFault};
use fsfs_base::decimals::decimal;
use fsfs_base::pieces::{bytes_of, text};
use fsfs_base::{Pairs, ReadError};
use std::alloc::{AllocError, Global};
use std::collections::BTreeMap;

/// Bytes behind their letter and their length, and what stands behind them.
#[tactic(auto, unfolding(crate::specs::Hash::Reading::field_at))]
pub(crate) fn field(letter: u8, bytes: &[u8]) -> Result<(&[u8], &[u8]), usize>
    ensures { Gives (λ p. (p.0.now, p.1.now)) result (field_at letter bytes.now) }
{
    let rest = text(&[letter, b' '], bytes)?;
    let (len, rest) = decimal(u64::MAX, b'\n', rest)?;
    let (value, rest) = bytes_of(len, rest)?;
    let rest = text(&[b'\n'], rest)?;
    Ok((value, rest))
}

/// A key and its value, and what stands behind them.
#[tactic(auto, unfolding(crate::specs::Hash::Reading::entry_at))]
pub(crate) fn entry(bytes: &[u8]) -> Result<((&[u8], &[u8]), &[u8]), usize>
    ensures { Gives (λ p. ((p.0.0.now, p.0.1.now), p.1.now)) result (entry_at bytes.now) }
{
    let (key, rest) = field(b'K', bytes)?;
    let (value, rest) = field(b'V', rest)?;
    Ok(((key, value), rest))
}

pub(crate) fn begins_with(letter: u8, bytes: &[u8]) -> bool
    ensures { result ≡ begins letter bytes.now }
{
    match bytes {
        [] => false,
        [b, ..] => *b == letter,
    }
}

/// The entries up to END, and the bytes behind it.
pub(crate) fn entries(
    alloc: Global,
    bytes: &[u8],
) -> Result<(Vec<(&[u8], &[u8])>, &[u8]), ReadError>
    ensures { GivesOrMemory (λ p. (views p.0.items, p.1.now)) result (entries_at (suc (length bytes.now)) bytes.now) }
{
    let mut found = Vec::new(alloc);
    let mut rest = bytes;
    let steps = bytes.len() + 1;
    for _ in 0..steps {
        if begins_with(b'K', rest) {
            let (next, after) = entry(rest)?;
            found.push(next)?;
            rest = after;
        } else {
            let after = text(b"END\n", rest)?;
            return Ok((found, after));
        }
    }
    Err(ReadError::Left(0))
}

/// The pairs by their keys' bytes, the last of each key. A map that is built at once looks for no key's place, and pairs
/// in order are compared once.
fn sorted(
    alloc: Global,
    pairs: Vec<(Vec<u8>, Vec<u8>)>,
) -> Result<BTreeMap<Vec<u8>, Vec<u8>>, AllocError>
    ensures { IfOk result (IsFromIterResult (λ x y. slice_cmp nat_cmp x.items y.items) pairs.items) }
{
    pairs.into_iter().collect(alloc)
}

/// The entries as pairs, the last of each key.
pub(crate) fn gather(alloc: Global, found: &[(&[u8], &[u8])]) -> Result<Pairs, AllocError>
    ensures { IfOk result (λ pairs. pairs ≡ put_all [] (views found.now)) }
{
    let mut pairs = Vec::with_capacity(alloc, found.len())?;
    for e in found {
        let key = Vec::from_slice(alloc, e.0)?;
        let value = Vec::from_slice(alloc, e.1)?;
        pairs.push((key, value))?;
    }
    let map = sorted(alloc, pairs)?;
    Ok(Pairs::from(map))
}

#[tactic(auto, unfolding(crate::specs::Hash::Reading::dump_at))]
fn dump(alloc: Global, bytes: &[u8]) -> Result<Pairs, ReadError>
    ensures { GivesOrMemory (λ pairs. pairs) result (dump_at bytes.now) }
{
    let (found, rest) = entries(alloc, bytes)?;
    if !rest.is_empty() {
        return Err(ReadError::Left(rest.len()));
    }
    let pairs = gather(alloc, &found)?;
    Ok(pairs)
}

/// The pairs of a dump. Entries may stand in any order, and the last of a key counts (this project's profile).
pub fn read_hash(alloc: Global, bytes: &[u8]) -> Result<Pairs, HashError>
    ensures found { IfOk result (IsDump bytes.now) }
    ensures only { (pairs : List (List ℕ × List ℕ)) → IsDump bytes.now pairs → MatchResult result (λ p. p ≡ pairs) IsOutOfMemory }
    ensures fault { IfErr result (IsExact IsDump bytes.now) }
{
    match dump(alloc, bytes) {
        Ok(pairs) => Ok(pairs),
        Err(ReadError::OutOfMemory) => Err(HashError::OutOfMemory),
        Err(ReadError::Left(left)) => Err(HashError::Fault(HashFault {
            at: bytes.len() - left,
        })),
    }
}
