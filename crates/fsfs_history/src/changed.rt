//! The text of the changed paths of a revision.
ghost use Rattle.std.specs.Prelude.{◌≡◌, []};
ghost use Rattle.fsfs_revision.specs.Told.{RevisionBytes, Knows, Keeps};
ghost use Rattle.fsfs_look.specs.Walks.{Walks};
ghost use Rattle.fsfs_look.specs.Written.{Writes, HasDiskCause, HasSinkCause};
ghost use Rattle.fsfs_stands.specs.ChangedTexts.{ChangedText, LinesText, end_of, in_order};
ghost use Rattle.fsfs_history.specs.Views.{by_text_value, EndsText};

use crate::by_text::ItemsByText;
use crate::items::{ReadItems, items_of};
use crate::kept_dir::KeptDir;
use crate::lines::item_lines;
use fsfs_base::{RevNum, Sink};
use fsfs_look::{LookError, write_full, write_last};
use fsfs_revision::{Book, Wrong};
use fsfs_stands::LookFault;
use std::alloc::Global;

/// How a text ends behind what is written of its items.
pub fn ending(wrong: Option<Wrong>) -> Result<(), LookError>
    ensures { EndsText wrong result }
{
    match wrong {
        None => Ok(()),
        Some(wrong) => Err(LookError::Fault(LookFault::Wrong(wrong))),
    }
}

// Writes the lines of the items, but for the last lines.
fn write_items<B: Book, S: Sink>(
    alloc: Global,
    book: &mut B,
    rev: RevNum,
    items: &ItemsByText,
    wrong: Option<Wrong>,
    lines: &mut Vec<u8>,
    sink: &mut S,
) -> Result<(), LookError>
    requires { lines.old.items ≡ [] }
    ensures told { (look : RevisionBytes) → Knows (B.told book.old).revs rev look
        → Walks (LinesText look rev (by_text_value items.now) (end_of wrong) (in_order (by_text_value items.now))) [] lines.new.items (S.written sink.old) (S.written sink.new) result }
    ensures kept { Keeps (B.told book.old) (B.told book.new) }
    ensures cause { HasDiskCause (B.faults book.old) (B.faults book.new) result }
    ensures sink { HasSinkCause (S.faults sink.old) (S.faults sink.new) result }
{
    let mut kept: Option<KeptDir> = None;
    for item in items.items.values() {
        write_full(sink, lines)?;
        let more = item_lines(alloc, book, rev, items, item, &mut kept)?;
        lines.extend_from_slice(&more)?;
    }
    ending(wrong)
}

/// Writes the changed paths of a revision, each as a line in the order of the bytes of their texts: two characters of status,
/// two blanks, the path without its first `/`, and `/` for a directory. `A ` is added, `D ` deleted, `U ` a changed text, `_U`
/// changed properties, `UU` both; a replaced path has a line `D ` and a line `A `. Where an item is damaged, the lines of those
/// before it are written.
///
/// The changed-path data of the revision are in memory, and the entries of one directory: of a replaced path the directories
/// above what was taken away are read, but for the one that was read last.
pub fn changed_text<B: Book, S: Sink>(
    alloc: Global,
    book: &mut B,
    rev: RevNum,
    sink: &mut S,
) -> Result<(), LookError>
    ensures told { (look : RevisionBytes) → Knows (B.told book.old).revs rev look → Writes (ChangedText look rev) (S.written sink.old) (S.written sink.new) result }
    ensures kept { Keeps (B.told book.old) (B.told book.new) }
    ensures cause { HasDiskCause (B.faults book.old) (B.faults book.new) result }
    ensures sink { HasSinkCause (S.faults sink.old) (S.faults sink.new) result }
{
    let ReadItems { items, wrong } = items_of(alloc, book, rev)?;
    let found = ItemsByText::of(alloc, items)?;
    let mut lines = Vec::new(alloc);
    let walked = write_items(alloc, book, rev, &found, wrong, &mut lines, sink);
    write_last(sink, &mut lines, walked)
}
