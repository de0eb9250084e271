//! Reading a whole dump without copying its pairs.
ghost use Rattle.std.specs.Prelude.{◌≡◌, ℕ, true, List, [], IfOk, IfErr, MatchResult};
ghost use Rattle.std.specs.BTreeMap.{IsFromIterResult};
ghost use Rattle.std.specs.Cmp.Lexicographic.{slice_cmp};
ghost use Rattle.std.specs.Ordering.{nat_cmp};
ghost use Rattle.fsfs_base.specs.Grammar.ReadErrors.{GivesOrMemory};
ghost use Rattle.fsfs_layout.specs.Hash.Reading.{views, dump_at};
ghost use Rattle.fsfs_layout.specs.Hash.Dump.{Ascending, put_all, IsDump};
ghost use Rattle.fsfs_layout.specs.Hash.Fault.{IsOutOfMemory, IsExact};

use crate::hash::dump::entries;
use crate::hash::error::{HashError, HashFault};
use fsfs_base::ReadError;
use std::alloc::{AllocError, Global};
use std::cmp::Ordering;
use std::collections::BTreeMap;

// Whether each key stands above the one before it.
fn rises(found: &[(&[u8], &[u8])]) -> bool
    ensures { result ≡ true → Ascending (views found.now) }
{
    let mut last: &[u8] = b"";
    for e in found {
        match last.cmp(e.0) {
            Ordering::Less => last = e.0,
            Ordering::Equal | Ordering::Greater => return false,
        }
    }
    true
}

// The last value of each key.
fn last_of_each<'a>(
    alloc: Global,
    found: Vec<(&'a [u8], &'a [u8])>,
) -> Result<BTreeMap<&'a [u8], &'a [u8]>, AllocError>
    ensures { IfOk result (IsFromIterResult (λ x y. slice_cmp nat_cmp x.now y.now) found.entry.items) }
{
    found.into_iter().collect(alloc)
}

// The pairs by their keys' bytes, the last of each key.
fn sorted<'a>(
    alloc: Global,
    found: Vec<(&'a [u8], &'a [u8])>,
) -> Result<Vec<(&'a [u8], &'a [u8])>, AllocError>
    ensures { IfOk result (λ v. views v.items ≡ put_all [] (views found.entry.items)) }
{
    let map = last_of_each(alloc, found)?;
    let mut pairs = Vec::with_capacity(alloc, map.len())?;
    for (key, value) in &map {
        pairs.push((*key, *value))?;
    }
    Ok(pairs)
}

// The same, where most dumps have that order already.
fn in_order<'a>(
    alloc: Global,
    found: Vec<(&'a [u8], &'a [u8])>,
) -> Result<Vec<(&'a [u8], &'a [u8])>, AllocError>
    ensures { IfOk result (λ v. views v.items ≡ put_all [] (views found.entry.items)) }
{
    if rises(&found) {
        Ok(found)
    } else {
        sorted(alloc, found)
    }
}

#[tactic(auto, unfolding(crate::specs::Hash::Reading::dump_at))]
fn pairs(alloc: Global, bytes: &[u8]) -> Result<Vec<(&[u8], &[u8])>, ReadError>
    ensures { GivesOrMemory (λ v. views v.items) result (dump_at bytes.now) }
{
    let (found, rest) = entries(alloc, bytes)?;
    if !rest.is_empty() {
        return Err(ReadError::Left(rest.len()));
    }
    let pairs = in_order(alloc, found)?;
    Ok(pairs)
}

/// The pairs of a dump as `read_hash` reads them, by their keys' bytes, but where they lie in the bytes of the dump.
pub fn read_hash_in_place(alloc: Global, bytes: &[u8]) -> Result<Vec<(&[u8], &[u8])>, HashError>
    ensures found { IfOk result (λ v. IsDump bytes.now (views v.items)) }
    ensures only { (pairs : List (List ℕ × List ℕ)) → IsDump bytes.now pairs → MatchResult result (λ v. views v.items ≡ pairs) IsOutOfMemory }
    ensures fault { IfErr result (IsExact IsDump bytes.now) }
{
    match pairs(alloc, bytes) {
        Ok(pairs) => Ok(pairs),
        Err(ReadError::OutOfMemory) => Err(HashError::OutOfMemory),
        Err(ReadError::Left(left)) => Err(HashError::Fault(HashFault {
            at: bytes.len() - left,
        })),
    }
}
