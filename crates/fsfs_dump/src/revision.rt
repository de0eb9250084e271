//! The records of a revision.
ghost use Rattle.std.specs.Prelude.{◌≡◌, ◌++◌, OnOk};
ghost use Rattle.fsfs_revision.specs.Told.{RevisionBytes, Knows, Keeps};
ghost use Rattle.fsfs_look.specs.Walks.{Walks};
ghost use Rattle.fsfs_look.specs.Written.{HasDiskCause, HasSinkCause};
ghost use Rattle.fsfs_stands.specs.ChangedTexts.{end_of, in_order};
ghost use Rattle.fsfs_history.specs.Views.{by_text_value};
ghost use Rattle.fsfs_dump.specs.Records.{revision_record};
ghost use Rattle.fsfs_dump.specs.Texts.{ItemsText, ChangesText, RevisionText};

use crate::block::{block_of, put_revision};
use crate::item::write_item;
use fsfs_base::{Pairs, RevNum, Sink};
use fsfs_history::{ItemsByText, ReadItems, ending, items_of};
use fsfs_look::{LookError, rev_props, write_full};
use fsfs_revision::{Book, RevProps, Wrong};
use std::alloc::{AllocError, Global};
use std::thread::Threads;

// Writes the records of the items, but for what is kept.
fn write_items<R: Threads, B: Book, S: Sink>(
    rt: &R,
    alloc: Global,
    book: &mut B,
    rev: RevNum,
    items: &ItemsByText,
    wrong: Option<Wrong>,
    lines: &mut Vec<u8>,
    sink: &mut S,
) -> Result<(), LookError>
    ensures told { (look : RevisionBytes) → Knows (B.told book.old).revs rev look
        → Walks (ItemsText look rev (end_of wrong) (in_order (by_text_value items.now))) lines.old.items lines.new.items (S.written sink.old) (S.written sink.new) result }
    ensures kept { Keeps (B.told book.old) (B.told book.new) }
    ensures cause { HasDiskCause (B.faults book.old) (B.faults book.new) result }
    ensures sink { HasSinkCause (S.faults sink.old) (S.faults sink.new) result }
{
    for item in items.items.values() {
        write_full(sink, lines)?;
        write_item(rt, alloc, book, rev, item, lines, sink)?;
    }
    ending(wrong)
}

// Writes the changed paths of a revision, but for what is kept.
fn write_changes<R: Threads, B: Book, S: Sink>(
    rt: &R,
    alloc: Global,
    book: &mut B,
    rev: RevNum,
    lines: &mut Vec<u8>,
    sink: &mut S,
) -> Result<(), LookError>
    ensures told { (look : RevisionBytes) → Knows (B.told book.old).revs rev look → Walks (ChangesText look rev) lines.old.items lines.new.items (S.written sink.old) (S.written sink.new) result }
    ensures kept { Keeps (B.told book.old) (B.told book.new) }
    ensures cause { HasDiskCause (B.faults book.old) (B.faults book.new) result }
    ensures sink { HasSinkCause (S.faults sink.old) (S.faults sink.new) result }
{
    let ReadItems { items, wrong } = items_of(alloc, book, rev)?;
    let found = ItemsByText::of(alloc, items)?;
    write_items(rt, alloc, book, rev, &found, wrong, lines, sink)
}

// Puts the record of a revision of these properties.
fn put_props(
    alloc: Global,
    lines: &mut Vec<u8>,
    rev: RevNum,
    pairs: &Pairs,
) -> Result<(), AllocError>
    ensures { OnOk result (lines.new.items ≡ lines.old.items ++ revision_record rev pairs.now) }
{
    let block = block_of(alloc, pairs)?;
    put_revision(lines, rev, &block)?;
    Ok(())
}

/// Writes a revision, but for what is kept: its properties, and its changed paths in the order of the bytes of their texts. Its
/// changed-path data are in memory.
pub(crate) fn write_revision<R: Threads, B: RevProps, S: Sink>(
    rt: &R,
    alloc: Global,
    book: &mut B,
    rev: RevNum,
    lines: &mut Vec<u8>,
    sink: &mut S,
) -> Result<(), LookError>
    ensures told { (look : RevisionBytes) → Knows (B.told book.old).revs rev look
        → Walks (RevisionText look (B.may_read book.old) rev) lines.old.items lines.new.items (S.written sink.old) (S.written sink.new) result }
    ensures kept { Keeps (B.told book.old) (B.told book.new) }
    ensures cause { HasDiskCause (B.faults book.old) (B.faults book.new) result }
    ensures sink { HasSinkCause (S.faults sink.old) (S.faults sink.new) result }
{
    let pairs = rev_props(alloc, book, rev)?;
    put_props(alloc, lines, rev, &pairs)?;
    write_changes(rt, alloc, book, rev, lines, sink)
}
