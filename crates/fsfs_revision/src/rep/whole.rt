//! All bytes of a representation.
ghost use Rattle.std.specs.Prelude.{◌≡◌, ℕ, List, Some, Ok, Err, IsSome, IfErr, MatchResult};
ghost use Rattle.fsfs_revision.specs.declared.wrong.Refusal.{Refusal};
ghost use Rattle.fsfs_revision.specs.Damage.Causes.{HasCause};
ghost use Rattle.fsfs_revision.specs.Told.{Keeps};
ghost use Rattle.fsfs_revision.specs.Rep.Faults.{IsRefusedFor, IsAbout};
ghost use Rattle.fsfs_revision.specs.Rep.Frames.{rev_of, IsTextOf, IsFaultOf};

use crate::rep::rep_reader::RepReader;
use crate::{Book, ReadError};
use fsfs_noderev::Rep;
use std::alloc::Global;

// How many bytes are read at a time.
const PIECE: usize = 8192;

/// All bytes of a representation of a revision. Memory is taken as the bytes come, and not for the length that the
/// representation claims; a caller that wants no more than so many bytes looks at that length first.
pub fn read_rep_bytes<B: Book>(alloc: Global, book: &mut B, rep: &Rep) -> Result<Vec<u8>, ReadError>
    requires { IsSome rep.now.rev }
    ensures bytes { (bytes : List ℕ) → (B.told book.old).revs (rev_of rep.now) ≡ Some (Ok bytes) → MatchResult result (λ text. IsTextOf rep.now bytes text.items) (IsFaultOf rep.now bytes) }
    ensures refused { (why : Refusal) → (B.told book.old).revs (rev_of rep.now) ≡ Some (Err why) → MatchResult result (λ _. ⊥) (IsRefusedFor why) }
    ensures about { IfErr result (IsAbout rep.now) }
    ensures kept { Keeps (B.told book.old) (B.told book.new) }
    ensures cause { HasCause (B.faults book.old) (B.faults book.new) result }
{
    let mut reader = RepReader::begin(book, rep)?;
    let mut bytes = Vec::new(alloc);
    let mut piece = [0u8; PIECE];
    'pieces: while reader.left() > 0 {
        let count = reader.next(book, &mut piece)?;
        bytes.extend_from_slice(&piece[..count])?;
    }
    reader.finish(book)?;
    Ok(bytes)
}
