//! The records of an item.
ghost use Rattle.std.specs.Prelude.{◌≡◌, ◌++◌, ℕ, List, [], Option, None, Some, OnOk, option_map, unwrap_or};
ghost use Rattle.fsfs_revision.specs.Told.{RevisionBytes, Knows, Keeps};
ghost use Rattle.fsfs_dag.specs.Views.{home_of};
ghost use Rattle.fsfs_look.specs.Revprops.Texts.{ReadText};
ghost use Rattle.fsfs_look.specs.Walks.{Walks};
ghost use Rattle.fsfs_look.specs.Written.{HasDiskCause, HasSinkCause};
ghost use Rattle.fsfs_stands.specs.FileTexts.{IsWholeText};
ghost use Rattle.fsfs_dump.specs.Records.{Pairs as PairsValue, props_block, facts_of as facts_value_of, delete_record, records_head, record_end};
ghost use Rattle.fsfs_dump.specs.Readings.{source_of, TextRecords, NodeRecords, ThereRecords, ItemRecords};
ghost use Rattle.fsfs_dump.specs.Views.{block_value, text_value, is_gone, IsLong};

use crate::block::{block_set, props_set};
use crate::facts::{facts_of, facts_of_rep};
use crate::headers::{put_delete, put_head};
use crate::node::node_of;
use crate::text::{long_text, text_set, write_long};
use fsfs_base::{Action, Kind, RevNum, Sink};
use fsfs_dag::PlacedNode;
use fsfs_history::kind_of;
use fsfs_look::LookError;
use fsfs_noderev::{ChangeItem, Rep};
use fsfs_revision::Book;
use std::alloc::{AllocError, Global};
use std::thread::Threads;

// How many bytes of a long text are read and written at a time; of a large one more are read for its digests.
const PIECE: usize = 65536;

// Puts the records of a path without a text.
fn put_bare(
    alloc: Global,
    lines: &mut Vec<u8>,
    item: &ChangeItem,
    kind: Kind,
    block: &Option<Vec<u8>>,
) -> Result<(), AllocError>
    ensures { OnOk result (lines.new.items ≡ lines.old.items ++ (records_head item.now.path item.now.action kind (source_of item.now) (block_value block.now) None ++ [] ++ record_end)) }
{
    put_head(alloc, lines, item, kind, block, &None)?;
    lines.extend_from_slice(b"\n\n")?;
    Ok(())
}

// Puts the records of a path with this text.
fn put_text(
    alloc: Global,
    lines: &mut Vec<u8>,
    item: &ChangeItem,
    kind: Kind,
    block: &Option<Vec<u8>>,
    text: &[u8],
) -> Result<(), AllocError>
    ensures { OnOk result (lines.new.items ≡ lines.old.items ++ (records_head item.now.path item.now.action kind (source_of item.now) (block_value block.now) (Some (facts_value_of text.now)) ++ text.now ++ record_end)) }
{
    put_head(alloc, lines, item, kind, block, &Some(facts_of(text)))?;
    lines.extend_from_slice(text)?;
    lines.extend_from_slice(b"\n\n")?;
    Ok(())
}

// Puts the records of a path with a text in memory, where it has one.
fn put_with(
    alloc: Global,
    lines: &mut Vec<u8>,
    item: &ChangeItem,
    kind: Kind,
    block: &Option<Vec<u8>>,
    text: &Option<Vec<u8>>,
) -> Result<(), AllocError>
    ensures { OnOk result (lines.new.items ≡ lines.old.items
        ++ (records_head item.now.path item.now.action kind (source_of item.now) (block_value block.now) (option_map facts_value_of (text_value text.now)) ++ unwrap_or (text_value text.now) [] ++ record_end)) }
{
    match text {
        None => put_bare(alloc, lines, item, kind, block),
        Some(text) => put_text(alloc, lines, item, kind, block, text),
    }
}

// Puts the records of a path whose text is in memory as a whole, where it has one.
fn put_short<B: Book>(
    alloc: Global,
    book: &mut B,
    item: &ChangeItem,
    kind: Kind,
    node: &PlacedNode,
    block: &Option<Vec<u8>>,
    lines: &mut Vec<u8>,
) -> Result<(), LookError>
    ensures told { (look : RevisionBytes) → Knows (B.told book.old).revs (home_of node.now.node).rev look → (pairs : Option PairsValue) → block_value block.now ≡ option_map props_block pairs
        → (told : Option (List ℕ)) → Walks (ReadText (TextRecords look item.now item.now.action kind node.now.node pairs)) lines.old.items lines.new.items told told result }
    ensures kept { Keeps (B.told book.old) (B.told book.new) }
    ensures cause { HasDiskCause (B.faults book.old) (B.faults book.new) result }
    ensures quiet { (faults : ℕ) → HasSinkCause faults faults result }
{
    let text = text_set(alloc, book, item.text_changed, node)?;
    put_with(alloc, lines, item, kind, block, &text)?;
    Ok(())
}

// Writes the records of a path whose text is long: read once for its digests, and once more as it is written.
fn write_with<R: Threads, B: Book, S: Sink>(
    rt: &R,
    alloc: Global,
    book: &mut B,
    item: &ChangeItem,
    kind: Kind,
    node: &PlacedNode,
    rep: &Rep,
    block: &Option<Vec<u8>>,
    lines: &mut Vec<u8>,
    sink: &mut S,
) -> Result<(), LookError>
    requires { IsLong item.now.text_changed node.now rep.now }
    ensures told { (look : RevisionBytes) → Knows (B.told book.old).revs (home_of node.now.node).rev look → (pairs : Option PairsValue) → block_value block.now ≡ option_map props_block pairs
        → Walks (ReadText (TextRecords look item.now item.now.action kind node.now.node pairs)) lines.old.items lines.new.items (S.written sink.old) (S.written sink.new) result }
    ensures kept { Keeps (B.told book.old) (B.told book.new) }
    ensures cause { HasDiskCause (B.faults book.old) (B.faults book.new) result }
    ensures sink { HasSinkCause (S.faults sink.old) (S.faults sink.new) result }
{
    let mut piece = [0u8; PIECE];
    let facts = facts_of_rep(rt, alloc, book, rep, &mut piece)?;
    put_head(alloc, lines, item, kind, block, &Some(facts))?;
    write_long(book, rep, &mut piece, lines, sink)
}

// Writes the records of a path at which a node stands.
fn write_node<R: Threads, B: Book, S: Sink>(
    rt: &R,
    alloc: Global,
    book: &mut B,
    item: &ChangeItem,
    kind: Kind,
    node: &PlacedNode,
    lines: &mut Vec<u8>,
    sink: &mut S,
) -> Result<(), LookError>
    ensures told { (look : RevisionBytes) → Knows (B.told book.old).revs (home_of node.now.node).rev look
        → Walks (ReadText (NodeRecords look item.now item.now.action kind node.now.node)) lines.old.items lines.new.items (S.written sink.old) (S.written sink.new) result }
    ensures kept { Keeps (B.told book.old) (B.told book.new) }
    ensures cause { HasDiskCause (B.faults book.old) (B.faults book.new) result }
    ensures sink { HasSinkCause (S.faults sink.old) (S.faults sink.new) result }
{
    let pairs = props_set(alloc, book, item.props_changed, node)?;
    let block = block_set(alloc, &pairs)?;
    match long_text(item.text_changed, node) {
        None => put_short(alloc, book, item, kind, node, &block, lines),
        Some(rep) => write_with(rt, alloc, book, item, kind, node, rep, &block, lines, sink),
    }
}

// Writes the records of a path that was not taken away.
fn write_there<R: Threads, B: Book, S: Sink>(
    rt: &R,
    alloc: Global,
    book: &mut B,
    rev: RevNum,
    item: &ChangeItem,
    lines: &mut Vec<u8>,
    sink: &mut S,
) -> Result<(), LookError>
    ensures told { (look : RevisionBytes) → Knows (B.told book.old).revs rev look
        → Walks (ReadText (ThereRecords look rev item.now item.now.action)) lines.old.items lines.new.items (S.written sink.old) (S.written sink.new) result }
    ensures kept { Keeps (B.told book.old) (B.told book.new) }
    ensures cause { HasDiskCause (B.faults book.old) (B.faults book.new) result }
    ensures sink { HasSinkCause (S.faults sink.old) (S.faults sink.new) result }
{
    let kind = kind_of(alloc, book, rev, item)?;
    let node = node_of(alloc, book, rev, item)?;
    write_node(rt, alloc, book, item, kind, &node, lines, sink)
}

// Puts the record of a path that was taken away.
fn put_gone(alloc: Global, item: &ChangeItem, lines: &mut Vec<u8>) -> Result<(), LookError>
    ensures told { (told : Option (List ℕ)) → Walks (IsWholeText (delete_record item.now.path)) lines.old.items lines.new.items told told result }
    ensures cause { (faults : ℕ) → HasDiskCause faults faults result }
    ensures quiet { (faults : ℕ) → HasSinkCause faults faults result }
{
    put_delete(alloc, lines, &item.path)?;
    Ok(())
}

// Whether the path was taken away.
fn is_gone(action: Action) -> bool
    ensures { result ≡ is_gone action }
{
    match action {
        Action::Delete => true,
        Action::Add | Action::Replace | Action::Modify => false,
    }
}

/// Writes the records of an item, but for what is kept. Nothing is written of one whose node, properties or text is damaged or a
/// delta.
pub(crate) fn write_item<R: Threads, B: Book, S: Sink>(
    rt: &R,
    alloc: Global,
    book: &mut B,
    rev: RevNum,
    item: &ChangeItem,
    lines: &mut Vec<u8>,
    sink: &mut S,
) -> Result<(), LookError>
    ensures told { (look : RevisionBytes) → Knows (B.told book.old).revs rev look
        → Walks (ReadText (ItemRecords look rev item.now)) lines.old.items lines.new.items (S.written sink.old) (S.written sink.new) result }
    ensures kept { Keeps (B.told book.old) (B.told book.new) }
    ensures cause { HasDiskCause (B.faults book.old) (B.faults book.new) result }
    ensures sink { HasSinkCause (S.faults sink.old) (S.faults sink.new) result }
{
    if is_gone(item.action) {
        return put_gone(alloc, item, lines);
    }
    write_there(rt, alloc, book, rev, item, lines, sink)
}
