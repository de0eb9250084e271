//! Reading a revision's property file.
ghost use Rattle.std.specs.Prelude.{◌≡◌, ◌≤◌, ℕ, List, Result, Ok, Err, length, true, IfOk, MatchResult};
ghost use Rattle.fsfs_revision.specs.declared.wrong.Refusal.{Refusal};
ghost use Rattle.fsfs_revision.specs.Damage.Causes.{HasCause, IsQuiet};
ghost use Rattle.fsfs_revision.specs.Damage.Readings.{Answers, IfWrong};
ghost use Rattle.fsfs_revision.specs.Told.{Keeps};
ghost use Rattle.fsfs_revision.specs.RevProps.{IsLook, FileRead};
ghost use Rattle.fsfs_base.specs.Grammar.Relations.{GoesOn};
ghost use Rattle.fsfs_layout.specs.Hash.Dump.{IsDump};
ghost use Rattle.fsfs_look.specs.Revprops.Files.{DumpRead, RevPropsIn, RevPropsOf};

use fsfs_base::{Pairs, RevNum};
use fsfs_layout::{HashError, read_hash};
use fsfs_revision::{BookFault, DamageKind, ReadError, RevOffset, RevProps, Wrong};
use std::alloc::Global;

// How many bytes fit into the first look. Few property files are longer.
const FIRST_LOOK: usize = 4096;

// One look at a revision's property file, from its beginning.
fn look<B: RevProps>(book: &mut B, rev: RevNum, buffer: &mut [u8]) -> Result<usize, ReadError>
    ensures bound { IfOk result (λ n. n ≤ length buffer.new) }
    ensures read { MatchResult result (λ n. (text : List ℕ) × B.may_read book.old rev (Ok text) × IsLook text buffer.old buffer.new n) (IfWrong (λ w. FileRead (B.may_read book.old rev) (Err w))) }
    ensures fewer { (r : ℕ) (read : Result (List ℕ) Refusal) → B.may_read book.new r read → B.may_read book.old r read }
    ensures kept { Keeps (B.told book.old) (B.told book.new) }
    ensures cause { HasCause (B.faults book.old) (B.faults book.new) result }
{
    match book.read_props(rev, buffer) {
        Ok(count) => Ok(count),
        Err(BookFault::Refused(refusal)) => Err(ReadError::Wrong(Wrong::Refused(refusal))),
        Err(BookFault::Short { .. }) => unreachable!(),
        Err(BookFault::DiskFault) => Err(ReadError::DiskFault),
        Err(BookFault::OutOfMemory) => Err(ReadError::OutOfMemory),
    }
}

// Whether bytes leave the form of a dump, whatever stands behind them.
fn leave_form(alloc: Global, bytes: &[u8]) -> bool
    ensures { result ≡ true → ¬ GoesOn IsDump bytes.now }
{
    match read_hash(alloc, bytes) {
        Err(HashError::Fault(fault)) => fault.at < bytes.len(),
        _ => false,
    }
}

// The bytes of a revision's property file, as one look gave them: all, or a front after which no dump goes on, so that a
// file without an end is not read for ever. Other bytes that fill the buffer may not be all: then a look into one of twice
// the size reads the file anew, which may have other properties by then.
fn file_bytes<B: RevProps>(alloc: Global, book: &mut B, rev: RevNum) -> Result<Vec<u8>, ReadError>
    ensures read { Answers (λ v. v.items) (DumpRead (B.may_read book.old rev)) result }
    ensures kept { Keeps (B.told book.old) (B.told book.new) }
    ensures cause { HasCause (B.faults book.old) (B.faults book.new) result }
{
    let mut size = FIRST_LOOK;
    for _ in 0..usize::BITS {
        let mut bytes = vec![in alloc; 0u8; size]?;
        let count = look(book, rev, &mut bytes)?;
        if count < size {
            bytes.truncate(count);
            return Ok(bytes);
        }
        if leave_form(alloc, &bytes) {
            return Ok(bytes);
        }
        let Some(twice) = size.checked_mul(2) else {
            return Err(ReadError::OutOfMemory);
        };
        size = twice;
    }
    Err(ReadError::OutOfMemory)
}

// The pairs of the bytes of a property file.
fn pairs_in(alloc: Global, rev: RevNum, bytes: &[u8]) -> Result<Pairs, ReadError>
    ensures told { Answers (λ pairs. pairs) (RevPropsIn rev bytes.now) result }
    ensures quiet { IsQuiet result }
{
    match read_hash(alloc, bytes) {
        Ok(pairs) => Ok(pairs),
        Err(HashError::OutOfMemory) => Err(ReadError::OutOfMemory),
        Err(HashError::Fault(_)) => {
            Err(ReadError::damaged(RevOffset { rev, offset: 0 }, DamageKind::Props))
        }
    }
}

/// The properties of a revision, of one text that may be read of its property file. The whole file is in memory for a while,
/// and the pairs are then; a file that is no dump is Props at 0, and is read no further than that shows.
pub fn rev_props<B: RevProps>(alloc: Global, book: &mut B, rev: RevNum) -> Result<Pairs, ReadError>
    ensures read { Answers (λ pairs. pairs) (RevPropsOf (B.may_read book.old) rev) result }
    ensures kept { Keeps (B.told book.old) (B.told book.new) }
    ensures cause { HasCause (B.faults book.old) (B.faults book.new) result }
{
    let bytes = file_bytes(alloc, book, rev)?;
    pairs_in(alloc, rev, &bytes)
}
