//! The text of a node.
ghost use Rattle.std.specs.Prelude.{◌≡◌, ◌<◌, ◌++◌, ℕ, List, Some, Ok, IsSome, IfSome, length};
ghost use Rattle.fsfs_revision.specs.Damage.Causes.{HasCause};
ghost use Rattle.fsfs_revision.specs.Damage.Readings.{Answers};
ghost use Rattle.fsfs_revision.specs.Told.{RevisionBytes, Knows, Keeps};
ghost use Rattle.fsfs_revision.specs.Rep.Frames.{rev_of, text_of as rep_text, IsWhole};
ghost use Rattle.fsfs_dag.specs.Views.{home_of};
ghost use Rattle.fsfs_stands.specs.FileTexts.{IsWholeText};
ghost use Rattle.fsfs_look.specs.Walks.{Walks};
ghost use Rattle.fsfs_look.specs.Written.{HasDiskCause, HasSinkCause};
ghost use Rattle.fsfs_dump.specs.Records.{record_end};
ghost use Rattle.fsfs_dump.specs.Readings.{IfSet, ContentOf};
ghost use Rattle.fsfs_dump.specs.Views.{text_value, IsLong};

use crate::again::write_again;
use fsfs_base::{Kind, Sink};
use fsfs_dag::{PlacedNode, text_of};
use fsfs_look::{LookError, write_piece};
use fsfs_noderev::Rep;
use fsfs_revision::{Book, ReadError};
use std::alloc::Global;

// A text of more bytes is never in memory as a whole.
const MOST: u64 = 8192;

/// The representation of a file's text that is too long to be in memory as a whole; none of another node.
pub(crate) fn long_text(set: bool, node: &PlacedNode) -> Option<&Rep>
    ensures { IfSome result (λ rep. IsLong set node.now rep.now) }
{
    match node.node.kind {
        Kind::Dir => None,
        Kind::File => match node.text() {
            None => None,
            Some(rep) => if set && rep.length > MOST {
                Some(rep)
            } else {
                None
            },
        },
    }
}

// The text of a node: that of a file; a directory has none.
fn content_of<B: Book>(alloc: Global, book: &mut B, node: &PlacedNode) -> Result<Vec<u8>, ReadError>
    ensures told { (look : RevisionBytes) → Knows (B.told book.old).revs (home_of node.now.node).rev look → Answers (λ v. v.items) (ContentOf look node.now.node) result }
    ensures kept { Keeps (B.told book.old) (B.told book.new) }
    ensures cause { HasCause (B.faults book.old) (B.faults book.new) result }
{
    match node.node.kind {
        Kind::Dir => Ok(Vec::new(alloc)),
        Kind::File => text_of(alloc, book, node),
    }
}

/// The text of a node, where it was set. The whole text is in memory then.
pub(crate) fn text_set<B: Book>(
    alloc: Global,
    book: &mut B,
    set: bool,
    node: &PlacedNode,
) -> Result<Option<Vec<u8>>, ReadError>
    ensures told { (look : RevisionBytes) → Knows (B.told book.old).revs (home_of node.now.node).rev look → Answers text_value (IfSet set (ContentOf look node.now.node)) result }
    ensures kept { Keeps (B.told book.old) (B.told book.new) }
    ensures cause { HasCause (B.faults book.old) (B.faults book.new) result }
{
    if !set {
        return Ok(None);
    }
    match content_of(alloc, book, node) {
        Ok(text) => Ok(Some(text)),
        Err(error) => Err(error),
    }
}

/// Writes what is kept, the text of a representation that was checked, and the end of its record but for what is kept then.
pub(crate) fn write_long<B: Book, S: Sink>(
    book: &mut B,
    rep: &Rep,
    piece: &mut [u8],
    lines: &mut Vec<u8>,
    sink: &mut S,
) -> Result<(), LookError>
    requires rev { IsSome rep.now.rev }
    requires room { 0 < length piece.old }
    ensures told { (bytes : List ℕ) → (B.told book.old).revs (rev_of rep.now) ≡ Some (Ok bytes) → IsWhole rep.now bytes
        → Walks (IsWholeText (rep_text rep.now bytes ++ record_end)) lines.old.items lines.new.items (S.written sink.old) (S.written sink.new) result }
    ensures kept { Keeps (B.told book.old) (B.told book.new) }
    ensures cause { HasDiskCause (B.faults book.old) (B.faults book.new) result }
    ensures sink { HasSinkCause (S.faults sink.old) (S.faults sink.new) result }
{
    write_piece(sink, lines)?;
    lines.clear();
    write_again(book, rep, piece, sink)?;
    lines.extend_from_slice(b"\n\n")?;
    Ok(())
}
