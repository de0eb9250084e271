//! A text that was checked, read once more as it is written.
ghost use Rattle.std.specs.Prelude.{◌≡◌, ◌≤◌, ◌<◌, ◌+◌, ◌-◌, ◌^◌, min, ℕ, List, Some, Ok, IsSome, IfOk, MatchResult, length, take, drop};
ghost use Rattle.fsfs_revision.specs.Damage.Causes.{HasCause};
ghost use Rattle.fsfs_revision.specs.Told.{Keeps};
ghost use Rattle.fsfs_revision.specs.Rep.Frames.{rev_of, text_of, IsWhole, IsFaultOf};
ghost use Rattle.fsfs_stands.specs.FileTexts.{IsWholeText};
ghost use Rattle.fsfs_look.specs.Written.{Writes, HasDiskCause, HasSinkCause};

use fsfs_base::{Sink, fitting};
use fsfs_look::{LookError, write_piece};
use fsfs_noderev::Rep;
use fsfs_revision::{Book, PLAIN_LEN, ReadError, RepWhat, bad_rep, window};

// Where a byte of the text stands, behind the line `PLAIN`. None is above the last number of a u64.
fn position(rep: &Rep, done: u64) -> u64
    ensures { rep.now.offset + PLAIN_LEN + done < 2 ^ 64 → result ≡ rep.now.offset + PLAIN_LEN + done }
{
    rep.offset.saturating_add(PLAIN_LEN).saturating_add(done)
}

// Reads the next bytes of a text into the beginning of the piece, and answers how many: at least one.
fn read_piece<B: Book>(
    book: &mut B,
    rep: &Rep,
    done: u64,
    piece: &mut [u8],
) -> Result<usize, ReadError>
    requires rev { IsSome rep.now.rev }
    requires room { 0 < length piece.old }
    requires left { done < rep.now.length }
    ensures some { IfOk result (λ n. 0 < n) }
    ensures count { IfOk result (λ n. n ≤ min (length piece.old) (rep.now.length - done)) }
    ensures told { (bytes : List ℕ) → (B.told book.old).revs (rev_of rep.now) ≡ Some (Ok bytes) → IsWhole rep.now bytes
        → MatchResult result (λ n. take n piece.new ≡ take n (drop done (text_of rep.now bytes))) (IsFaultOf rep.now bytes) }
    ensures room { length piece.new ≡ length piece.old }
    ensures kept { Keeps (B.told book.old) (B.told book.new) }
    ensures cause { HasCause (B.faults book.old) (B.faults book.new) result }
{
    let Some(rev) = rep.rev else { unreachable!() };
    let want = fitting(piece.len(), rep.length - done);
    let count = window(book, rev, position(rep, done), &mut piece[..want])?;
    if count == 0 {
        return Err(bad_rep(rep, RepWhat::EndRep));
    }
    Ok(count)
}

/// Writes the text of a representation that was checked, a piece of this size at a time. It is not digested again: who loads the
/// dump compares it with the digests in front of it.
pub(crate) fn write_again<B: Book, S: Sink>(
    book: &mut B,
    rep: &Rep,
    piece: &mut [u8],
    sink: &mut S,
) -> Result<(), LookError>
    requires rev { IsSome rep.now.rev }
    requires room { 0 < length piece.old }
    ensures told { (bytes : List ℕ) → (B.told book.old).revs (rev_of rep.now) ≡ Some (Ok bytes) → IsWhole rep.now bytes
        → Writes (IsWholeText (text_of rep.now bytes)) (S.written sink.old) (S.written sink.new) result }
    ensures kept { Keeps (B.told book.old) (B.told book.new) }
    ensures cause { HasDiskCause (B.faults book.old) (B.faults book.new) result }
    ensures sink { HasSinkCause (S.faults sink.old) (S.faults sink.new) result }
{
    let length = rep.length;
    let mut done: u64 = 0;
    'pieces: while done < length {
        let count = match read_piece(book, rep, done, piece) {
            Ok(count) => count,
            Err(error) => return Err(LookError::from(error)),
        };
        write_piece(sink, &piece[..count])?;
        done += count as u64;
    }
    Ok(())
}
