//! A file's text, written into a sink.
ghost use Rattle.std.specs.Prelude.{◌≡◌};
ghost use Rattle.fsfs_base.specs.declared.kind.Kind.TheVariants.{File};
ghost use Rattle.fsfs_revision.specs.Told.{RevisionBytes, Knows, Keeps};
ghost use Rattle.fsfs_revision.specs.Shows.Reading.{TextOf};
ghost use Rattle.fsfs_dag.specs.Views.{home_of};
ghost use Rattle.fsfs_dag.specs.Writing.{Writes, HasCauses};

use crate::contents::text_of;
use crate::node::PlacedNode;
use fsfs_base::{Sink, print};
use fsfs_revision::{Book, ReadError};
use std::alloc::Global;
use thiserror::Error;

/// Why a text was not written, or not whole.
#[derive(Clone, Copy, Debug, Error)]
pub enum TextError {
    /// It was not had; nothing was written.
    #[error("the text is not read")]
    Unread(ReadError),
    /// A call of the sink failed, and its count of faults rose.
    #[error("the text is not written")]
    WriteFault,
}

/// Writes the text of a file, all of which is checked before its first byte is written. The whole text is in memory then.
pub fn text_to<B: Book, S: Sink>(
    alloc: Global,
    book: &mut B,
    file: &PlacedNode,
    sink: &mut S,
) -> Result<(), TextError>
    requires { file.now.node.kind ≡ File }
    ensures told { (look : RevisionBytes) → Knows (B.told book.old).revs (home_of file.now.node).rev look → Writes (S.written sink.old) (S.written sink.new) (TextOf look file.now.node) result }
    ensures kept { Keeps (B.told book.old) (B.told book.new) }
    ensures causes { HasCauses (B.faults book.old) (B.faults book.new) (S.faults sink.old) (S.faults sink.new) result }
{
    let text = match text_of(alloc, book, file) {
        Ok(text) => text,
        Err(error) => return Err(TextError::Unread(error)),
    };
    match print(sink, &text) {
        Ok(()) => Ok(()),
        Err(_) => Err(TextError::WriteFault),
    }
}
