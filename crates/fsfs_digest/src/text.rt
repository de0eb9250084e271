//! The SHA-1 of a text, and whether it is the one that its representation names.
ghost use Rattle.std.specs.Prelude.{◌≡◌, ◌<◌, ℕ, List, Some, Ok, Err, IsSome, MatchResult, length};
ghost use Rattle.sha1.specs.Sha1.{sha1};
ghost use Rattle.fsfs_revision.specs.declared.wrong.Refusal.{Refusal};
ghost use Rattle.fsfs_revision.specs.Damage.Causes.{HasCause, IsQuiet};
ghost use Rattle.fsfs_revision.specs.Damage.Checks.{FirstFails};
ghost use Rattle.fsfs_revision.specs.Damage.Readings.{IfWrong};
ghost use Rattle.fsfs_revision.specs.Told.{Keeps};
ghost use Rattle.fsfs_revision.specs.Rep.Faults.{IsRefusedFor};
ghost use Rattle.fsfs_revision.specs.Rep.Frames.{rev_of, text_of, HasSha1, IsWhole, IsFaultOf, sha1_checks};
ghost use Rattle.fsfs_digest.specs.Views.{bare};

use crate::beside::{is_large, sha1_beside};
use fsfs_base::HexDigest;
use fsfs_noderev::Rep;
use fsfs_revision::{Book, ReadError, RepReader, RepWhat, bad_rep};
use sha1::Sha1;
use std::alloc::Global;
use std::thread::Threads;

// The SHA-1 of a representation that names none, which is read to its end and checked.
fn sha1_read<B: Book>(book: &mut B, rep: &Rep, piece: &mut [u8]) -> Result<HexDigest<20>, ReadError>
    requires rev { IsSome rep.now.rev }
    requires room { 0 < length piece.old }
    ensures bytes { (bytes : List ℕ) → (B.told book.old).revs (rev_of rep.now) ≡ Some (Ok bytes) → MatchResult result (λ found. IsWhole rep.now bytes × (found.bytes ≡ sha1 (text_of rep.now bytes))) (IsFaultOf rep.now bytes) }
    ensures refused { (why : Refusal) → (B.told book.old).revs (rev_of rep.now) ≡ Some (Err why) → MatchResult result (λ _. ⊥) (IsRefusedFor why) }
    ensures room { length piece.new ≡ length piece.old }
    ensures kept { Keeps (B.told book.old) (B.told book.new) }
    ensures cause { HasCause (B.faults book.old) (B.faults book.new) result }
{
    let mut reader = RepReader::begin(book, rep)?;
    let mut digest = Sha1::new();
    'pieces: while reader.left() > 0 {
        let count = reader.next(book, piece)?;
        digest.update(&piece[..count]);
    }
    reader.finish(book)?;
    Ok(HexDigest {
        bytes: digest.finalize(),
    })
}

// The SHA-1 of a representation that names none, which is read to its end and checked: a large one by a thread beside, another a piece
// of this size at a time.
fn sha1_of<R: Threads, B: Book>(
    rt: &R,
    alloc: Global,
    book: &mut B,
    rep: &Rep,
    piece: &mut [u8],
) -> Result<HexDigest<20>, ReadError>
    requires rev { IsSome rep.now.rev }
    requires room { 0 < length piece.old }
    ensures bytes { (bytes : List ℕ) → (B.told book.old).revs (rev_of rep.now) ≡ Some (Ok bytes) → MatchResult result (λ found. IsWhole rep.now bytes × (found.bytes ≡ sha1 (text_of rep.now bytes))) (IsFaultOf rep.now bytes) }
    ensures refused { (why : Refusal) → (B.told book.old).revs (rev_of rep.now) ≡ Some (Err why) → MatchResult result (λ _. ⊥) (IsRefusedFor why) }
    ensures room { length piece.new ≡ length piece.old }
    ensures kept { Keeps (B.told book.old) (B.told book.new) }
    ensures cause { HasCause (B.faults book.old) (B.faults book.new) result }
{
    if is_large(rep) {
        sha1_beside(rt, alloc, book, rep)
    } else {
        sha1_read(book, rep, piece)
    }
}

// A representation but for the SHA-1 that it names.
fn without_sha1(rep: &Rep) -> Rep
    ensures { result ≡ bare rep.now }
{
    Rep {
        unique: None,
        ..*rep
    }
}

// The SHA-1 is that which the representation names, where it names one.
fn agree(rep: &Rep, found: HexDigest<20>) -> Result<(), ReadError>
    ensures text { (text : List ℕ) → found.bytes ≡ sha1 text → MatchResult result (λ _. HasSha1 rep.now text) (IfWrong (FirstFails (sha1_checks rep.now rep.now.unique text))) }
    ensures quiet { IsQuiet result }
{
    match &rep.unique {
        Some(unique) if unique.sha1 != found => Err(bad_rep(
            rep,
            RepWhat::Sha1 {
                kept: unique.sha1,
                found,
            },
        )),
        _ => Ok(()),
    }
}

/// The SHA-1 of the text of a representation, which is read to its end and checked: its frame, its size and its digests. The piece is
/// for all but a large one.
pub fn sha1_of_rep<R: Threads, B: Book>(
    rt: &R,
    alloc: Global,
    book: &mut B,
    rep: &Rep,
    piece: &mut [u8],
) -> Result<HexDigest<20>, ReadError>
    requires rev { IsSome rep.now.rev }
    requires room { 0 < length piece.old }
    ensures bytes { (bytes : List ℕ) → (B.told book.old).revs (rev_of rep.now) ≡ Some (Ok bytes) → MatchResult result (λ found. IsWhole rep.now bytes × (found.bytes ≡ sha1 (text_of rep.now bytes))) (IsFaultOf rep.now bytes) }
    ensures refused { (why : Refusal) → (B.told book.old).revs (rev_of rep.now) ≡ Some (Err why) → MatchResult result (λ _. ⊥) (IsRefusedFor why) }
    ensures room { length piece.new ≡ length piece.old }
    ensures kept { Keeps (B.told book.old) (B.told book.new) }
    ensures cause { HasCause (B.faults book.old) (B.faults book.new) result }
{
    let found = sha1_of(rt, alloc, book, &without_sha1(rep), piece)?;
    agree(rep, found)?;
    Ok(found)
}
