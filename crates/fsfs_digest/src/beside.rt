//! A large text, whose SHA-1 a thread takes while the text is read and its MD5 is taken.
ghost use Rattle.std.specs.Prelude.{◌≡◌, ◌≤◌, ◌<◌, ◌+◌, ◌-◌, ℕ, true, false, List, ◌++◌, Some, Ok, Err, IsSome, OnOk, IfErr, MatchResult, take, drop};
ghost use Rattle.sha1.specs.Sha1.{Holds, sha1};
ghost use Rattle.fsfs_revision.specs.declared.wrong.Refusal.{Refusal};
ghost use Rattle.fsfs_revision.specs.Damage.Causes.{HasCause};
ghost use Rattle.fsfs_revision.specs.Told.{Keeps};
ghost use Rattle.fsfs_revision.specs.Rep.Faults.{IsRefusedFor};
ghost use Rattle.fsfs_revision.specs.Rep.Frames.{rev_of, text_of, IsWhole, IsFaultOf};
ghost use Rattle.fsfs_revision.specs.Rep.Reading.{IsReading};
ghost use Rattle.fsfs_digest.specs.Views.{piece_bytes};

use crate::piece::{PIECE_LEN, Piece};
use fsfs_base::HexDigest;
use fsfs_noderev::Rep;
use fsfs_revision::{Book, ReadError, RepReader};
use sha1::Sha1;
use std::alloc::Global;
use std::mem;
use std::thread::{Threads, join_mut};

/// Whether a text is worth threads: it is longer than a piece.
pub fn is_large(rep: &Rep) -> bool
    ensures yes { result ≡ true → PIECE_LEN < rep.now.length }
    ensures no { result ≡ false → rep.now.length ≤ PIECE_LEN }
{
    rep.length > PIECE_LEN as u64
}

// Reads the next piece of a text and takes its MD5, while a thread takes the piece before into the SHA-1.
fn fill_beside<R: Threads, B: Book>(
    rt: &R,
    book: &mut B,
    reader: &mut RepReader,
    digest: &mut Sha1,
    before: &Piece,
    next: &mut Piece,
) -> Result<(), ReadError>
    ensures digest { (text : List ℕ) → Holds digest.old text → Holds digest.new (text ++ piece_bytes before.now) }
    ensures some { 0 < reader.old.rep.length - reader.old.done → OnOk result (0 < next.new.count) }
    ensures bytes { (bytes : List ℕ) → (B.told book.old).revs (rev_of reader.old.rep) ≡ Some (Ok bytes) → IsReading reader.old bytes
        → MatchResult result (λ _. IsReading reader.new bytes × (piece_bytes next.new ≡ take next.new.count (drop reader.old.done (text_of reader.old.rep bytes)))) (IsFaultOf reader.old.rep bytes) }
    ensures refused { (why : Refusal) → (B.told book.old).revs (rev_of reader.old.rep) ≡ Some (Err why) → IfErr result (IsRefusedFor why) }
    ensures rep { reader.new.rep ≡ reader.old.rep }
    ensures done { OnOk result (reader.new.done ≡ reader.old.done + next.new.count) }
    ensures kept { Keeps (B.told book.old) (B.told book.new) }
    ensures cause { HasCause (B.faults book.old) (B.faults book.new) result }
{
    let taken = before.bytes();
    let ((), filled) = join_mut(
        rt,
        &mut || digest.update(taken),
        &mut || next.fill(book, reader),
    );
    filled
}

/// The SHA-1 of a representation that names none, which is read to its end and checked. Two pieces of it are in memory.
pub(crate) fn sha1_beside<R: Threads, B: Book>(
    rt: &R,
    alloc: Global,
    book: &mut B,
    rep: &Rep,
) -> Result<HexDigest<20>, ReadError>
    requires { IsSome rep.now.rev }
    ensures bytes { (bytes : List ℕ) → (B.told book.old).revs (rev_of rep.now) ≡ Some (Ok bytes) → MatchResult result (λ found. IsWhole rep.now bytes × (found.bytes ≡ sha1 (text_of rep.now bytes))) (IsFaultOf rep.now bytes) }
    ensures refused { (why : Refusal) → (B.told book.old).revs (rev_of rep.now) ≡ Some (Err why) → MatchResult result (λ _. ⊥) (IsRefusedFor why) }
    ensures kept { Keeps (B.told book.old) (B.told book.new) }
    ensures cause { HasCause (B.faults book.old) (B.faults book.new) result }
{
    let mut piece = Piece::new(alloc)?;
    let mut next = Piece::new(alloc)?;
    let mut reader = RepReader::begin(book, rep)?;
    let mut digest = Sha1::new();
    'pieces: while reader.left() > 0 {
        fill_beside(rt, book, &mut reader, &mut digest, &piece, &mut next)?;
        mem::swap(&mut piece, &mut next);
    }
    digest.update(piece.bytes());
    reader.finish(book)?;
    Ok(HexDigest {
        bytes: digest.finalize(),
    })
}
