//! A representation read piece by piece.
ghost use Rattle.std.specs.Prelude.{◌≡◌, ◌≤◌, ◌<◌, ◌+◌, ◌-◌, ◌^◌, min, ℕ, List, Option, Some, Ok, Err, length, take, drop, IsSome, IfOk, IfErr, OnErr, MatchResult};
ghost use Rattle.fsfs_revision.specs.declared.wrong.Refusal.{Refusal};
ghost use Rattle.fsfs_revision.specs.Told.{Keeps};
ghost use Rattle.fsfs_revision.specs.Damage.Causes.{HasCause};
ghost use Rattle.fsfs_revision.specs.Rep.Faults.{IsRefusedFor, IsAbout};
ghost use Rattle.fsfs_revision.specs.Rep.Frames.{rev_of, text_of, Agrees, Disagrees, IsWhole, IsFaultOf};
ghost use Rattle.fsfs_revision.specs.Rep.Seen.{HasSeenNamed};

use crate::rep::digests::Digests;
use crate::rep::frame::{ENDREP_LEN, PLAIN_LEN};
use crate::rep::header::{HEADER_LEN, Header, header_of};
use crate::rep::place::{bad_rep, rep_place};
use crate::rep::windows::window;
use crate::{Book, ReadError, RepWhat, Wrong};
use fsfs_base::pieces::text;
use fsfs_base::{HexDigest, fitting};
use fsfs_noderev::Rep;
use md5::Digest;

/// A representation that is being read, from its first byte on. The book is handed to each call, so that it is free
/// between them; it is to be the same one. Each byte is read and digested once.
#[derive(Drop)]
pub struct RepReader {
    rep: Rep,
    // How many bytes of the text were read.
    done: u64,
    digests: Digests,
    ghost named: { IsSome rep.rev },
    ghost digested: { IsSome rep.unique → IsSome digests.sha1 },
    ghost bounded: { done ≤ rep.length },
}

// A place so many bytes behind another. None is above the last number of a u64.
fn behind(offset: u64, count: u64) -> u64
    ensures { offset + count < 2 ^ 64 → result ≡ offset + count }
{
    offset.saturating_add(count)
}

// The text is as the representation says.
fn agree(rep: &Rep, digests: Digests) -> Result<(), ReadError>
    requires { IsSome rep.now.unique → IsSome digests.sha1 }
    ensures about { IfErr result (IsAbout rep.now) }
    ensures cause { (before now : ℕ) → before ≤ now → HasCause before now result }
    ensures text { (text : List ℕ) → HasSeenNamed digests text → MatchResult result (λ _. Agrees rep.now text) (Disagrees rep.now text) }
{
    if rep.size != 0 && rep.size != rep.length {
        return Err(bad_rep(
            rep,
            RepWhat::Size {
                kept: rep.size,
                found: rep.length,
            },
        ));
    }
    let Digests { md5, sha1 } = digests;
    let md5 = HexDigest {
        bytes: md5.finalize(),
    };
    if rep.md5 != md5 {
        return Err(bad_rep(
            rep,
            RepWhat::Md5 {
                kept: rep.md5,
                found: md5,
            },
        ));
    }
    let Some(unique) = &rep.unique else {
        return Ok(());
    };
    let Some(sha1) = sha1 else { unreachable!() };
    let sha1 = HexDigest {
        bytes: sha1.finalize(),
    };
    if unique.sha1 != sha1 {
        return Err(bad_rep(
            rep,
            RepWhat::Sha1 {
                kept: unique.sha1,
                found: sha1,
            },
        ));
    }
    Ok(())
}

impl RepReader {
    ghost use Rattle.fsfs_revision.specs.Rep.Reading.{IsReading};

    /// Begins to read a representation of a revision: its header is read, and none of its text.
    pub fn begin<B: Book>(book: &mut B, rep: &Rep) -> Result<RepReader, ReadError>
        requires { IsSome rep.now.rev }
        ensures bytes { (bytes : List ℕ) → (B.told book.old).revs (rev_of rep.now) ≡ Some (Ok bytes) → MatchResult result (λ reader. IsReading reader bytes) (IsFaultOf rep.now bytes) }
        ensures refused { (why : Refusal) → (B.told book.old).revs (rev_of rep.now) ≡ Some (Err why) → MatchResult result (λ _. ⊥) (IsRefusedFor why) }
        ensures about { IfErr result (IsAbout rep.now) }
        ensures rep { IfOk result (λ reader. reader.rep ≡ rep.now) }
        ensures done { IfOk result (λ reader. reader.done ≡ 0) }

        ensures kept { Keeps (B.told book.old) (B.told book.new) }
        ensures cause { HasCause (B.faults book.old) (B.faults book.new) result }
    {
        let Some(rev) = rep.rev else { unreachable!() };
        let mut line = [0u8; HEADER_LEN];
        let count = window(book, rev, rep.offset, &mut line)?;
        match header_of(&line[..count]) {
            Header::Plain => Ok(RepReader {
                rep: *rep,
                done: 0,
                digests: Digests::of(rep),
            }),
            Header::Delta => Err(ReadError::Wrong(Wrong::Delta(rep_place(rep)))),
            Header::Other => Err(bad_rep(rep, RepWhat::Header)),
        }
    }

    /// How many bytes of the text are left to be read.
    pub fn left(&self) -> u64
        ensures { result ≡ self.now.rep.length - self.now.done }
    {
        self.rep.length - self.done
    }

    // Where the next byte of the text stands.
    fn position(&self) -> u64
        ensures { self.now.rep.offset + PLAIN_LEN + self.now.done < 2 ^ 64 → result ≡ self.now.rep.offset + PLAIN_LEN + self.now.done }
    {
        behind(behind(self.rep.offset, PLAIN_LEN), self.done)
    }

    /// Reads the next bytes of the text into the beginning of the buffer, and answers how many: as many as are left and
    /// as fit. After an `Err` the reader is as it was, so the call can be made again.
    pub fn next<B: Book>(&mut self, book: &mut B, buffer: &mut [u8]) -> Result<usize, ReadError>
        ensures count { IfOk result (λ n. n ≡ min (length buffer.old) (self.old.rep.length - self.old.done)) }
        ensures bytes { (bytes : List ℕ) → (B.told book.old).revs (rev_of self.old.rep) ≡ Some (Ok bytes) → IsReading self.old bytes → MatchResult result (λ n. IsReading self.new bytes × (take n buffer.new ≡ take n (drop self.old.done (text_of self.old.rep bytes)))) (IsFaultOf self.old.rep bytes) }
        ensures refused { (why : Refusal) → (B.told book.old).revs (rev_of self.old.rep) ≡ Some (Err why) → IfErr result (IsRefusedFor why) }
        ensures about { IfErr result (IsAbout self.old.rep) }
        ensures rep { self.new.rep ≡ self.old.rep }
        ensures done { IfOk result (λ n. self.new.done ≡ self.old.done + n) }
        ensures err { OnErr result (self.new ≡ self.old) }

        ensures kept { Keeps (B.told book.old) (B.told book.new) }
        ensures cause { HasCause (B.faults book.old) (B.faults book.new) result }
    {
        let Some(rev) = self.rep.rev else {
            unreachable!()
        };
        let left = self.rep.length - self.done;
        let want = fitting(buffer.len(), left);
        if want == 0 {
            return Ok(0);
        }
        let piece = &mut buffer[..want];
        let count = window(book, rev, self.position(), piece)?;
        if count < want {
            return Err(bad_rep(&self.rep, RepWhat::EndRep));
        }
        self.digests.update(piece);
        self.done += want as u64;
        Ok(want)
    }

    /// Ends the reading: what follows the text is read, and the text is found to be as the representation says.
    pub fn finish<B: Book>(self, book: &mut B) -> Result<(), ReadError>
        requires { self.done ≡ self.rep.length }
        ensures bytes { (bytes : List ℕ) → (B.told book.old).revs (rev_of self.rep) ≡ Some (Ok bytes) → IsReading self bytes → MatchResult result (λ _. IsWhole self.rep bytes) (IsFaultOf self.rep bytes) }
        ensures refused { (why : Refusal) → (B.told book.old).revs (rev_of self.rep) ≡ Some (Err why) → MatchResult result (λ _. ⊥) (IsRefusedFor why) }
        ensures about { IfErr result (IsAbout self.rep) }

        ensures kept { Keeps (B.told book.old) (B.told book.new) }
        ensures cause { HasCause (B.faults book.old) (B.faults book.new) result }
    {
        let Some(rev) = self.rep.rev else {
            unreachable!()
        };
        let mut line = [0u8; ENDREP_LEN];
        let count = window(book, rev, self.position(), &mut line)?;
        match text(b"ENDREP\n", &line[..count]) {
            Ok(_) => {
                let RepReader { rep, digests, .. } = self;
                agree(&rep, digests)
            }
            Err(_) => Err(bad_rep(&self.rep, RepWhat::EndRep)),
        }
    }
}
