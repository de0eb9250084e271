//! What the readers of property files ask of a store.
ghost use Rattle.std.specs.Prelude.{◌≤◌, ℕ, List, Result, Ok, Err, length, IfOk, IfErr};
ghost use Rattle.fsfs_revision.specs.declared.wrong.Refusal.{Refusal};
ghost use Rattle.fsfs_revision.specs.Told.{Keeps, HasCause, IsAbout};
ghost use Rattle.fsfs_revision.specs.RevProps.{IsLook, IfRefused};

use crate::{Book, BookFault};
use fsfs_base::RevNum;

/// A book that gives the property files of its revisions, too.
///
/// The bytes of a revision never change, but its properties may be set anew. So nothing is told of a property file: a book
/// says what a look at it may read, which may be one text or several. Each look reads one of them, two looks may read two,
/// and the bytes of two looks are no text.
pub trait RevProps: Book {
    /// What a look at the property file of a revision may read: these bytes, or that there are none for this reason. Of a
    /// book that knows nothing of its files this may be anything.
    ghost may_read: { Self → ℕ → Result (List ℕ) Refusal → Type 0 };

    /// Reads the property file of a revision from its beginning into the beginning of the buffer, as much as fits, in one
    /// look, and answers how many bytes that is. Where the buffer is full, the file may be longer.
    fn read_props(&mut self, rev: RevNum, buffer: &mut [u8]) -> Result<usize, BookFault>
        ensures bound { IfOk result (λ n. n ≤ length buffer.new) }
        ensures read { IfOk result (λ n. (text : List ℕ) × may_read self.old rev (Ok text) × IsLook text buffer.old buffer.new n) }
        ensures refused { IfErr result (λ e. IfRefused e (λ why. may_read self.old rev (Err why))) }
        // What may be read from then on could be read before.
        ensures fewer { (r : ℕ) (read : Result (List ℕ) Refusal) → may_read self.new r read → may_read self.old r read }
        ensures about { IfErr result (IsAbout rev 0) }
        ensures kept { Keeps (Self.told self.old) (Self.told self.new) }
        ensures cause { HasCause (Self.faults self.old) (Self.faults self.new) result };
}

/// Such a book while nobody sets properties: what its looks may read is known from what it tells, so that all that is read over
/// it, as a dump of all revisions, is of one moment.
pub trait StillProps: RevProps {
    /// What may be read later may be read now.
    ghost still: { (old new : Self) (rev : ℕ) (read : Result (List ℕ) Refusal) → Keeps (Self.told old) (Self.told new) → Self.may_read new rev read → Self.may_read old rev read };
}
