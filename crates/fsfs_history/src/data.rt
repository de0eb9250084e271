//! The bytes of a revision's changed-path data.
ghost use Rattle.std.specs.Prelude.{◌≡◌, ◌+◌, ◌<◌, ◌≤◌, ◌^◌, ℕ, List, length, decimal};
ghost use Rattle.fsfs_revision.specs.Damage.Causes.{HasCause};
ghost use Rattle.fsfs_revision.specs.Damage.Readings.{Answers};
ghost use Rattle.fsfs_revision.specs.Told.{RevisionBytes, Keeps, IsTold};
ghost use Rattle.fsfs_revision.specs.Trailers.{IsTrailer};
ghost use Rattle.fsfs_stands.specs.Items.{DataOf};
ghost use Rattle.fsfs_history.specs.Ends.{TrailerOf, RestOf};

use fsfs_base::RevNum;
use fsfs_dag::revision_length;
use fsfs_revision::{
    Book, DamageKind, ReadError, RevOffset, TRAILER_LIMIT, Trailer, read_tail, window,
};
use itoa::Buffer;
use std::alloc::Global;

// How many bytes are read at a time.
const PIECE: usize = 65536;

/// The changed-path data of a revision, and where they begin.
#[derive(Drop)]
pub struct ChangesData {
    pub begins: u64,
    pub bytes: Vec<u8>,
}

// What the trailer of a revision says.
fn trailer_of<B: Book>(book: &mut B, rev: RevNum) -> Result<Trailer, ReadError>
    ensures told { (look : RevisionBytes) → IsTold (B.told book.old) look rev → Answers (λ t. t) (TrailerOf look rev) result }
    ensures kept { Keeps (B.told book.old) (B.told book.new) }
    ensures cause { HasCause (B.faults book.old) (B.faults book.new) result }
{
    let len = revision_length(book, rev)?;
    let begins = len.saturating_sub(TRAILER_LIMIT as u64);
    let mut tail = [0u8; TRAILER_LIMIT];
    let count = window(book, rev, begins, &mut tail)?;
    match read_tail(begins, &tail[..count]) {
        Some(trailer) => Ok(trailer),
        None => Err(ReadError::damaged(RevOffset { rev, offset: len }, DamageKind::Trailer)),
    }
}

// How many digits a number has.
fn digits(number: u64) -> usize
    ensures count { result ≡ length (decimal number) }
    ensures few { result ≤ 40 }
{
    let mut buffer = Buffer::new();
    buffer.format(number).len()
}

// How many bytes the trailer takes.
fn trailer_len(trailer: Trailer) -> usize
    ensures { (text : List ℕ) → IsTrailer text (trailer.root, trailer.changes) → result ≡ length text }
{
    digits(trailer.root) + digits(trailer.changes) + 3
}

// Where the next byte stands behind so many from a place on. None is above the last number of a u64.
fn position(from: u64, done: usize) -> u64
    ensures { from + done < 2 ^ 64 → result ≡ from + done }
{
    from.saturating_add(done as u64)
}

// All bytes of a revision from a place on.
fn bytes_from<B: Book>(
    alloc: Global,
    book: &mut B,
    rev: RevNum,
    from: u64,
) -> Result<Vec<u8>, ReadError>
    ensures told { (look : RevisionBytes) → IsTold (B.told book.old) look rev → Answers (λ v. v.items) (RestOf look rev from) result }
    ensures kept { Keeps (B.told book.old) (B.told book.new) }
    ensures cause { HasCause (B.faults book.old) (B.faults book.new) result }
{
    let mut bytes = Vec::new(alloc);
    let mut piece = [0u8; PIECE];
    for _ in 0..u64::MAX {
        let count = window(book, rev, position(from, bytes.len()), &mut piece)?;
        bytes.extend_from_slice(&piece[..count])?;
        if count < PIECE {
            return Ok(bytes);
        }
    }
    Err(ReadError::OutOfMemory)
}

/// The changed-path data of a revision: its bytes from the place that the trailer names up to the trailer.
pub fn changes_data<B: Book>(
    alloc: Global,
    book: &mut B,
    rev: RevNum,
) -> Result<ChangesData, ReadError>
    ensures told { (look : RevisionBytes) → IsTold (B.told book.old) look rev → Answers (λ d. (d.begins, d.bytes.items)) (DataOf look rev) result }
    ensures kept { Keeps (B.told book.old) (B.told book.new) }
    ensures cause { HasCause (B.faults book.old) (B.faults book.new) result }
{
    let trailer = trailer_of(book, rev)?;
    let mut bytes = bytes_from(alloc, book, rev, trailer.changes)?;
    bytes.truncate(bytes.len().saturating_sub(trailer_len(trailer)));
    Ok(ChangesData {
        begins: trailer.changes,
        bytes,
    })
}
