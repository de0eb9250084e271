//! The text of a file.
ghost use Rattle.std.specs.Prelude.{◌≡◌, ◌≤◌, ◌<◌, ◌+◌, ◌-◌, ◌^◌, min, ℕ, List, Some, Ok, Err, IsSome, IsOk, IfOk, IfErr, MatchResult, length, take, drop};
ghost use Rattle.md5.specs.Md5.{Holds, md5};
ghost use Rattle.fsfs_revision.specs.declared.damage.RepWhat.TheVariants as repwhat;
ghost use Rattle.fsfs_revision.specs.declared.wrong.ReadError.TheVariants.{Wrong};
ghost use Rattle.fsfs_revision.specs.declared.wrong.Refusal.{Refusal};
ghost use Rattle.fsfs_revision.specs.Told.{RevisionBytes, Knows, Keeps};
ghost use Rattle.fsfs_revision.specs.Damage.Causes.{HasCause};
ghost use Rattle.fsfs_revision.specs.Rep.Faults.{IsRefusedFor};
ghost use Rattle.fsfs_revision.specs.Rep.Frames.{rev_of, text_of, HasMd5, IsWhole, IsFaultOf, bad_rep};
ghost use Rattle.fsfs_stands.specs.FileTexts.{FileText, IsWholeText};
ghost use Rattle.fsfs_look.specs.Errors.{of_read, IsWrong};
ghost use Rattle.fsfs_look.specs.Written.{Writes, HasDiskCause, HasSinkCause};

use crate::look_error::LookError;
use crate::path::found_at;
use crate::piece::write_piece;
use fsfs_base::{FsPath, HexDigest, Kind, RevNum, Sink, fitting};
use fsfs_noderev::Rep;
use fsfs_revision::{Book, PLAIN_LEN, ReadError, RepReader, RepWhat, bad_rep, window};
use fsfs_stands::LookFault;
use md5::{Digest, Md5};
use std::alloc::Global;

// How many bytes are read and written at a time.
const PIECE: usize = 65536;

/// Reads a representation to its end, a piece of this size at a time, and checks it: its frame, its size and its digests.
pub fn check_rep<B: Book>(book: &mut B, rep: &Rep, piece: &mut [u8]) -> Result<(), ReadError>
    requires rev { IsSome rep.now.rev }
    requires room { 0 < length piece.old }
    ensures bytes { (bytes : List ℕ) → (B.told book.old).revs (rev_of rep.now) ≡ Some (Ok bytes) → MatchResult result (λ _. IsWhole rep.now bytes) (IsFaultOf rep.now bytes) }
    ensures refused { (why : Refusal) → (B.told book.old).revs (rev_of rep.now) ≡ Some (Err why) → MatchResult result (λ _. ⊥) (IsRefusedFor why) }
    ensures room { length piece.new ≡ length piece.old }
    ensures kept { Keeps (B.told book.old) (B.told book.new) }
    ensures cause { HasCause (B.faults book.old) (B.faults book.new) result }
{
    let mut reader = RepReader::begin(book, rep)?;
    'pieces: while reader.left() > 0 {
        reader.next(book, piece)?;
    }
    reader.finish(book)
}

// Where a byte of the text stands, behind the line `PLAIN`. None is above the last number of a u64.
fn position(rep: &Rep, done: u64) -> u64
    ensures { rep.now.offset + PLAIN_LEN + done < 2 ^ 64 → result ≡ rep.now.offset + PLAIN_LEN + done }
{
    rep.offset.saturating_add(PLAIN_LEN).saturating_add(done)
}

// Reads the next bytes of a text into the beginning of the piece, and answers how many: at least one. They are not
// digested.
fn read_piece<B: Book>(
    book: &mut B,
    rep: &Rep,
    done: u64,
    piece: &mut [u8],
) -> Result<usize, ReadError>
    requires rev { IsSome rep.now.rev }
    requires room { 0 < length piece.old }
    requires left { done < rep.now.length }
    ensures some { IfOk result (λ n. 0 < n) }
    ensures count { IfOk result (λ n. n ≤ min (length piece.old) (rep.now.length - done)) }
    ensures told { (bytes : List ℕ) → (B.told book.old).revs (rev_of rep.now) ≡ Some (Ok bytes) → IsWhole rep.now bytes
        → MatchResult result (λ n. take n piece.new ≡ take n (drop done (text_of rep.now bytes))) (IsFaultOf rep.now bytes) }
    ensures room { length piece.new ≡ length piece.old }
    ensures kept { Keeps (B.told book.old) (B.told book.new) }
    ensures cause { HasCause (B.faults book.old) (B.faults book.new) result }
{
    let Some(rev) = rep.rev else { unreachable!() };
    let want = fitting(piece.len(), rep.length - done);
    let count = window(book, rev, position(rep, done), &mut piece[..want])?;
    if count == 0 {
        return Err(bad_rep(rep, RepWhat::EndRep));
    }
    Ok(count)
}

// The text that was read again is the one that was checked, by its MD5.
fn check_again(rep: &Rep, digest: Md5) -> Result<(), LookError>
    ensures same { (text : List ℕ) → Holds digest text → HasMd5 rep.now text → IsOk result }
    ensures other { (text : List ℕ) → Holds digest text → IfErr result (λ e. e ≡ of_read (Wrong (bad_rep rep.now (repwhat.Md5 rep.now.md5 (record { bytes = md5 text }))))) }
    ensures bytes { IfErr result IsWrong }
{
    let found = HexDigest {
        bytes: digest.finalize(),
    };
    if rep.md5 != found {
        return Err(LookError::from(bad_rep(
            rep,
            RepWhat::Md5 {
                kept: rep.md5,
                found,
            },
        )));
    }
    Ok(())
}

/// Writes the text of a representation that was checked, a piece of this size at a time. Where it has another MD5 by now, that is told
/// behind it.
pub fn write_rep<B: Book, S: Sink>(
    book: &mut B,
    rep: &Rep,
    piece: &mut [u8],
    sink: &mut S,
) -> Result<(), LookError>
    requires rev { IsSome rep.now.rev }
    requires room { 0 < length piece.old }
    ensures told { (bytes : List ℕ) → (B.told book.old).revs (rev_of rep.now) ≡ Some (Ok bytes) → IsWhole rep.now bytes
        → Writes (IsWholeText (text_of rep.now bytes)) (S.written sink.old) (S.written sink.new) result }
    ensures kept { Keeps (B.told book.old) (B.told book.new) }
    ensures cause { HasDiskCause (B.faults book.old) (B.faults book.new) result }
    ensures sink { HasSinkCause (S.faults sink.old) (S.faults sink.new) result }
{
    let length = rep.length;
    let mut digest = Md5::new();
    let mut done: u64 = 0;
    'pieces: while done < length {
        let count = match read_piece(book, rep, done, piece) {
            Ok(count) => count,
            Err(error) => return Err(LookError::from(error)),
        };
        digest.update(&piece[..count]);
        write_piece(sink, &piece[..count])?;
        done += count as u64;
    }
    check_again(rep, digest)
}

/// Writes the text of the file at a path of a revision. All of it is read and its size and both digests are checked before
/// the first byte is written; then its bytes are read again, and where their MD5 is another the text has changed meanwhile:
/// that is told, behind what was written of it.
pub fn cat<B: Book, S: Sink>(
    alloc: Global,
    book: &mut B,
    rev: RevNum,
    path: &FsPath,
    sink: &mut S,
) -> Result<(), LookError>
    ensures told { (look : RevisionBytes) → Knows (B.told book.old).revs rev look → Writes (FileText look rev path.now) (S.written sink.old) (S.written sink.new) result }
    ensures kept { Keeps (B.told book.old) (B.told book.new) }
    ensures cause { HasDiskCause (B.faults book.old) (B.faults book.new) result }
    ensures sink { HasSinkCause (S.faults sink.old) (S.faults sink.new) result }
{
    let found = found_at(alloc, book, rev, path)?;
    match found.node.kind {
        Kind::Dir => Err(LookError::Fault(LookFault::NotFile)),
        Kind::File => match found.text() {
            None => Ok(()),
            Some(rep) => {
                let mut piece = [0u8; PIECE];
                match check_rep(book, rep, &mut piece) {
                    Ok(()) => write_rep(book, rep, &mut piece, sink),
                    Err(error) => Err(LookError::from(error)),
                }
            }
        },
    }
}
