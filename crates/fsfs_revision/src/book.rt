//! What the readers of revisions ask of a store.
ghost use Rattle.std.specs.Prelude.{◌≡◌, ◌≤◌, ◌<◌, ◌^◌, ℕ, List, Option, Some, Result, Ok, length, take, IfOk, IfErr, IfSome};
ghost use Rattle.fsfs_revision.specs.declared.wrong.Refusal.{Refusal};
ghost use Rattle.fsfs_revision.specs.declared.book.BookFault.TheVariants.{DiskFault};
ghost use Rattle.fsfs_revision.specs.Told.{Telling, Keeps, Gives, part_read, size_read, HasCause, IsAbout};

use crate::Refusal;
use fsfs_base::RevNum;
use thiserror::Error;

/// A call of a book gave nothing.
#[derive(Clone, Copy, Debug, PartialEq, Eq, Error)]
pub enum BookFault {
    /// The book has no bytes of the revision.
    #[error("the book has no bytes of the revision")]
    Refused(Refusal),
    /// The offset is past the end of the bytes.
    #[error("revision {rev} ends before {offset}")]
    Short { rev: RevNum, offset: u64 },
    /// A call of the disk below failed, and the book's count of faults rose.
    #[error("the disk failed")]
    DiskFault,
    /// Memory was wanting for what the book has to read before it finds the bytes.
    #[error("out of memory")]
    OutOfMemory,
}

/// What gives the bytes of revisions. Offsets count from the beginning of a revision's own bytes.
///
/// A book may tell, a revision at a time, what there is to read. What it has told stays true, and it may come to tell
/// more. A book that tells nothing still names its refusals rightly and counts its faults.
pub trait Book {
    /// What can be said of what is below it, as a disk.
    ghost Below: { Type 0 };

    /// What it tells: of each revision its bytes, or why there are none; the youngest revision, where that is known; and
    /// what is below it, which no call changes.
    ghost told: { Self → Telling Below };

    /// How often the disk below it has failed. The count stops at the last number of a u64.
    ghost faults: { Self → ℕ };

    /// The youngest revision.
    fn youngest(&mut self) -> Result<RevNum, BookFault>
        ensures told { IfSome (told self.old).youngest (λ y. IfOk result (λ n. n ≡ y)) }
        ensures failed { IfErr result (λ e. e ≡ DiskFault) }
        ensures kept { Keeps (told self.old) (told self.new) }
        ensures cause { HasCause (faults self.old) (faults self.new) result };

    /// The length of a revision's bytes.
    fn rev_len(&mut self, rev: RevNum) -> Result<u64, BookFault>
        ensures told { (read : Result (List ℕ) Refusal) → (told self.old).revs rev ≡ Some read → Gives (λ n. n) result (size_read read) }
        ensures about { IfErr result (IsAbout rev 0) }
        ensures kept { Keeps (told self.old) (told self.new) }
        ensures cause { HasCause (faults self.old) (faults self.new) result };

    /// Reads a revision's bytes from an offset on into the beginning of the buffer, and answers how many: as many as
    /// there are and as fit.
    fn read_rev(&mut self, rev: RevNum, offset: u64, buffer: &mut [u8]) -> Result<usize, BookFault>
        ensures bound { IfOk result (λ n. n ≤ length buffer.new) }
        ensures told { (read : Result (List ℕ) Refusal) → (told self.old).revs rev ≡ Some read → Gives (λ n. take n buffer.new) result (part_read rev offset (length buffer.old) read) }
        ensures about { IfErr result (IsAbout rev offset) }
        ensures kept { Keeps (told self.old) (told self.new) }
        ensures cause { HasCause (faults self.old) (faults self.new) result };

    /// No revision that is told has 2^64 bytes.
    ghost fits: { (book : Self) (rev : ℕ) (bytes : List ℕ) → (told book).revs rev ≡ Some (Ok bytes) → length bytes < 2 ^ 64 };
}
