//! A piece of a large text.
ghost use Rattle.std.specs.Prelude.{◌≡◌, ◌≤◌, ◌<◌, ◌+◌, ◌-◌, ℕ, List, [], Some, Ok, Err, IfOk, OnOk, IfErr, MatchResult, take, drop, vec_len};
ghost use Rattle.fsfs_revision.specs.declared.wrong.Refusal.{Refusal};
ghost use Rattle.fsfs_revision.specs.Damage.Causes.{HasCause};
ghost use Rattle.fsfs_revision.specs.Told.{Keeps};
ghost use Rattle.fsfs_revision.specs.Rep.Faults.{IsRefusedFor};
ghost use Rattle.fsfs_revision.specs.Rep.Frames.{rev_of, text_of, IsFaultOf};
ghost use Rattle.fsfs_revision.specs.Rep.Reading.{IsReading};

use fsfs_revision::{Book, ReadError, RepReader};
use std::alloc::{AllocError, Global};

/// How many bytes a piece may have. For each a thread is started, which takes some tens of microseconds; its SHA-1 takes some 2,500.
pub(crate) const PIECE_LEN: usize = 1_048_576;

/// Some bytes of a text, at the beginning of a buffer.
#[derive(Drop)]
pub(crate) struct Piece {
    buffer: Vec<u8>,
    count: usize,
    ghost room: { 0 < vec_len buffer },
    ghost within: { count ≤ vec_len buffer },
}

impl Piece {
    ghost use Rattle.fsfs_digest.specs.Views.{piece_bytes};

    /// No bytes yet.
    pub(crate) fn new(alloc: Global) -> Result<Piece, AllocError>
        ensures { IfOk result (λ piece. piece_bytes piece ≡ []) }
    {
        Ok(Piece {
            buffer: vec![in alloc; 0u8; PIECE_LEN]?,
            count: 0,
        })
    }

    /// The bytes.
    pub(crate) fn bytes(&self) -> &[u8]
        ensures { result.now ≡ piece_bytes self.now }
    {
        &self.buffer[..self.count]
    }

    /// Reads the next bytes of a text in their place, as many as are left and as fit.
    pub(crate) fn fill<B: Book>(
        &mut self,
        book: &mut B,
        reader: &mut RepReader,
    ) -> Result<(), ReadError>
        ensures some { 0 < reader.old.rep.length - reader.old.done → OnOk result (0 < self.new.count) }
        ensures bytes { (bytes : List ℕ) → (B.told book.old).revs (rev_of reader.old.rep) ≡ Some (Ok bytes) → IsReading reader.old bytes
            → MatchResult result (λ _. IsReading reader.new bytes × (piece_bytes self.new ≡ take self.new.count (drop reader.old.done (text_of reader.old.rep bytes)))) (IsFaultOf reader.old.rep bytes) }
        ensures refused { (why : Refusal) → (B.told book.old).revs (rev_of reader.old.rep) ≡ Some (Err why) → IfErr result (IsRefusedFor why) }
        ensures rep { reader.new.rep ≡ reader.old.rep }
        ensures done { OnOk result (reader.new.done ≡ reader.old.done + self.new.count) }
        ensures kept { Keeps (B.told book.old) (B.told book.new) }
        ensures cause { HasCause (B.faults book.old) (B.faults book.new) result }
    {
        self.count = reader.next(book, &mut self.buffer)?;
        Ok(())
    }
}
