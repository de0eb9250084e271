//! Reading a `children` file.
ghost use Rattle.std.specs.Prelude.{◌≡◌, ◌+◌, ℕ, suc, length, List, IfOk, IfErr, OnOk, MatchResult, option_map};
ghost use Rattle.fsfs_base.specs.Grammar.Reading.{Gives, many_at};
ghost use Rattle.fsfs_base.specs.Grammar.ReadErrors.{GivesOrMemory};
ghost use Rattle.fsfs_layout.specs.Hash.Reading.{change_views};
ghost use Rattle.fsfs_layout.specs.Hash.Children.{change_at, change_all, children_at, IsChildren};
ghost use Rattle.fsfs_layout.specs.Hash.Fault.{IsOutOfMemory, IsExact};

use crate::hash::dump::{begins_with, entries, entry, field, gather};
use crate::hash::error::{HashError, HashFault};
use fsfs_base::{Pairs, ReadError};
use std::alloc::{AllocError, Global};

#[tactic(auto, unfolding(crate::specs::Hash::Children::change_at))]
fn change(bytes: &[u8]) -> Result<((&[u8], Option<&[u8]>), &[u8]), usize>
    ensures { Gives (λ p. ((p.0.0.now, option_map (λ v. v.now) p.0.1), p.1.now)) result (change_at bytes.now) }
{
    if begins_with(b'D', bytes) {
        let (key, rest) = field(b'D', bytes)?;
        Ok(((key, None), rest))
    } else {
        let ((key, value), rest) = entry(bytes)?;
        Ok(((key, Some(value)), rest))
    }
}

/// The changes to the end of the bytes.
fn changes(alloc: Global, bytes: &[u8]) -> Result<Vec<(&[u8], Option<&[u8]>)>, ReadError>
    ensures { GivesOrMemory (λ v. change_views v.items) result (many_at change_at (suc (length bytes.now)) bytes.now) }
{
    let mut found = Vec::new(alloc);
    let mut rest = bytes;
    let steps = bytes.len() + 1;
    for _ in 0..steps {
        if rest.is_empty() {
            return Ok(found);
        }
        let (next, after) = change(rest)?;
        found.push(next)?;
        rest = after;
    }
    Err(ReadError::Left(0))
}

/// Lays the changes over the pairs, one after another.
fn lay_over(
    alloc: Global,
    pairs: &mut Pairs,
    changes: &[(&[u8], Option<&[u8]>)],
) -> Result<(), AllocError>
    ensures { OnOk result (pairs.new ≡ change_all pairs.old (change_views changes.now)) }
{
    for (key, value) in changes {
        match value {
            None => pairs.remove(key),
            Some(value) => {
                let key = Vec::from_slice(alloc, key)?;
                let value = Vec::from_slice(alloc, value)?;
                pairs.set(key, value)?;
            }
        }
    }
    Ok(())
}

#[tactic(auto, unfolding(crate::specs::Hash::Children::children_at))]
fn children(alloc: Global, bytes: &[u8]) -> Result<Pairs, ReadError>
    ensures { GivesOrMemory (λ pairs. pairs) result (children_at bytes.now) }
{
    let (found, rest) = entries(alloc, bytes)?;
    let tail = changes(alloc, rest)?;
    let mut pairs = gather(alloc, &found)?;
    lay_over(alloc, &mut pairs, &tail)?;
    Ok(pairs)
}

/// The pairs of a `children` file: a whole dump, and behind it entries and records `D <length>` of keys that are taken
/// away, one after another up to the end of the file.
pub fn read_children(alloc: Global, bytes: &[u8]) -> Result<Pairs, HashError>
    ensures found { IfOk result (IsChildren bytes.now) }
    ensures only { (pairs : List (List ℕ × List ℕ)) → IsChildren bytes.now pairs → MatchResult result (λ p. p ≡ pairs) IsOutOfMemory }
    ensures fault { IfErr result (IsExact IsChildren bytes.now) }
{
    match children(alloc, bytes) {
        Ok(pairs) => Ok(pairs),
        Err(ReadError::OutOfMemory) => Err(HashError::OutOfMemory),
        Err(ReadError::Left(left)) => Err(HashError::Fault(HashFault {
            at: bytes.len() - left,
        })),
    }
}
