//! A part of a revision's bytes.
ghost use Rattle.std.specs.Prelude.{◌≡◌, ◌≤◌, ℕ, List, Some, Ok, Err, length, take, drop, IfOk, IfErr, MatchResult};
ghost use Rattle.fsfs_revision.specs.declared.wrong.Refusal.{Refusal};
ghost use Rattle.fsfs_revision.specs.Damage.Causes.{HasCause};
ghost use Rattle.fsfs_revision.specs.Damage.Readings.{IfWrong};
ghost use Rattle.fsfs_revision.specs.Told.{Keeps};
ghost use Rattle.fsfs_revision.specs.Rep.Faults.{IsRefusedFor, IsRefusedRev};

use crate::{Book, BookFault, ReadError, Wrong};
use fsfs_base::RevNum;

/// Reads a revision's bytes from an offset on, as much as there is and as fits; nothing past the end.
pub fn window<B: Book>(
    book: &mut B,
    rev: RevNum,
    offset: u64,
    buffer: &mut [u8],
) -> Result<usize, ReadError>
    ensures bound { IfOk result (λ n. n ≤ length buffer.new) }
    ensures bytes { (bytes : List ℕ) → (B.told book.old).revs rev ≡ Some (Ok bytes) → MatchResult result (λ n. take n buffer.new ≡ take (length buffer.old) (drop offset bytes)) (IfWrong (λ _. ⊥)) }
    ensures refused { (why : Refusal) → (B.told book.old).revs rev ≡ Some (Err why) → MatchResult result (λ _. ⊥) (IsRefusedFor why) }
    ensures names { IfErr result (IfWrong (IsRefusedRev rev)) }
    ensures kept { Keeps (B.told book.old) (B.told book.new) }
    ensures cause { HasCause (B.faults book.old) (B.faults book.new) result }
{
    match book.read_rev(rev, offset, buffer) {
        Ok(count) => Ok(count),
        Err(BookFault::Short { .. }) => Ok(0),
        Err(BookFault::Refused(refusal)) => Err(ReadError::Wrong(Wrong::Refused(refusal))),
        Err(BookFault::DiskFault) => Err(ReadError::DiskFault),
        Err(BookFault::OutOfMemory) => Err(ReadError::OutOfMemory),
    }
}
