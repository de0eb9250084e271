//! The lines of an item.
ghost use Rattle.std.specs.Prelude.{◌≡◌, ◌++◌, ℕ, List, Ok, OnOk, IfOk};
ghost use Rattle.fsfs_tree.specs.Answers.{kind_mark};
ghost use Rattle.fsfs_revision.specs.Damage.Causes.{HasCause, IsQuiet};
ghost use Rattle.fsfs_revision.specs.Damage.Readings.{Answers};
ghost use Rattle.fsfs_revision.specs.Told.{RevisionBytes, Knows, Keeps};
ghost use Rattle.fsfs_tree.specs.ChangedTexts.{changed_line, modified_line, replaced_lines};
ghost use Rattle.fsfs_stands.specs.ChangedTexts.{ActionLines, ItemLines};
ghost use Rattle.fsfs_history.specs.KeptDirs.{IsKept};
ghost use Rattle.fsfs_history.specs.Views.{by_text_value, Replaced};

use crate::by_text::{ItemsByText, text_of};
use crate::kept_dir::KeptDir;
use crate::kinds::kind_of;
use crate::taken::taken_kind;
use fsfs_base::{Action, FsPath, Kind, RevNum};
use fsfs_noderev::ChangeItem;
use fsfs_revision::{Book, ReadError};
use std::alloc::{AllocError, Global};

// `/` behind the path of a directory.
fn put_mark(lines: &mut Vec<u8>, kind: Kind) -> Result<(), AllocError>
    ensures { OnOk result (lines.new.items ≡ lines.old.items ++ kind_mark kind) }
{
    match kind {
        Kind::File => {}
        Kind::Dir => lines.push(b'/')?,
    }
    Ok(())
}

// Puts a line: the status, two blanks, the path without its first `/`, and `/` for a directory.
fn put_line(
    alloc: Global,
    lines: &mut Vec<u8>,
    status: &[u8],
    path: &FsPath,
    kind: Kind,
) -> Result<(), AllocError>
    ensures { OnOk result (lines.new.items ≡ lines.old.items ++ changed_line status.now path.now kind) }
{
    let text = text_of(alloc, path)?;
    lines.extend_from_slice(status)?;
    lines.extend_from_slice(b"  ")?;
    lines.extend_from_slice(&text[1..])?;
    put_mark(lines, kind)?;
    lines.push(b'\n')?;
    Ok(())
}

fn line(alloc: Global, status: &[u8], path: &FsPath, kind: Kind) -> Result<Vec<u8>, AllocError>
    ensures { IfOk result (λ v. v.items ≡ changed_line status.now path.now kind) }
{
    let mut lines = Vec::new(alloc);
    put_line(alloc, &mut lines, status, path, kind)?;
    Ok(lines)
}

// The line of a modified path, by what was changed of it; none where nothing was.
fn modified(alloc: Global, item: &ChangeItem, kind: Kind) -> Result<Vec<u8>, AllocError>
    ensures { IfOk result (λ v. v.items ≡ modified_line item.now.text_changed item.now.props_changed item.now.path kind) }
{
    match (item.text_changed, item.props_changed) {
        (false, false) => Ok(Vec::new(alloc)),
        (true, false) => line(alloc, b"U ", &item.path, kind),
        (false, true) => line(alloc, b"_U", &item.path, kind),
        (true, true) => line(alloc, b"UU", &item.path, kind),
    }
}

// The lines of a replaced path: what was taken away, and what came.
fn replaced(alloc: Global, path: &FsPath, taken: Kind, kind: Kind) -> Result<Vec<u8>, AllocError>
    ensures { IfOk result (λ v. v.items ≡ replaced_lines path.now taken kind) }
{
    let mut lines = Vec::new(alloc);
    put_line(alloc, &mut lines, b"D ", path, taken)?;
    put_line(alloc, &mut lines, b"A ", path, kind)?;
    Ok(lines)
}

// Lines that were put, or want of memory.
fn read(lines: Result<Vec<u8>, AllocError>) -> Result<Vec<u8>, ReadError>
    ensures put { (text : List ℕ) → IfOk lines (λ v. v.items ≡ text) → Answers (λ v. v.items) (λ r. r ≡ Ok text) result }
    ensures quiet { IsQuiet result }
{
    match lines {
        Ok(lines) => Ok(lines),
        Err(_) => Err(ReadError::OutOfMemory),
    }
}

// The lines of a replace.
fn replace_lines<B: Book>(
    alloc: Global,
    book: &mut B,
    rev: RevNum,
    items: &ItemsByText,
    path: &FsPath,
    kind: Kind,
    kept: &mut Option<KeptDir>,
) -> Result<Vec<u8>, ReadError>
    ensures told { (look : RevisionBytes) → Knows (B.told book.old).revs rev look → IsKept look kept.old → Answers (λ v. v.items) (Replaced look rev (by_text_value items.now) path.now kind) result }
    ensures dir { (look : RevisionBytes) → Knows (B.told book.old).revs rev look → IsKept look kept.old → IsKept look kept.new }
    ensures kept { Keeps (B.told book.old) (B.told book.new) }
    ensures cause { HasCause (B.faults book.old) (B.faults book.new) result }
{
    let taken = taken_kind(alloc, book, rev, items, path, kind, kept)?;
    read(replaced(alloc, path, taken, kind))
}

// The lines of an item, by the kind of what it is about.
fn action_lines<B: Book>(
    alloc: Global,
    book: &mut B,
    rev: RevNum,
    items: &ItemsByText,
    item: &ChangeItem,
    kind: Kind,
    kept: &mut Option<KeptDir>,
) -> Result<Vec<u8>, ReadError>
    ensures told { (look : RevisionBytes) → Knows (B.told book.old).revs rev look → IsKept look kept.old → Answers (λ v. v.items) (ActionLines look rev (by_text_value items.now) item.now item.now.action kind) result }
    ensures dir { (look : RevisionBytes) → Knows (B.told book.old).revs rev look → IsKept look kept.old → IsKept look kept.new }
    ensures kept { Keeps (B.told book.old) (B.told book.new) }
    ensures cause { HasCause (B.faults book.old) (B.faults book.new) result }
{
    match item.action {
        Action::Add => read(line(alloc, b"A ", &item.path, kind)),
        Action::Delete => read(line(alloc, b"D ", &item.path, kind)),
        Action::Modify => read(modified(alloc, item, kind)),
        Action::Replace => replace_lines(alloc, book, rev, items, &item.path, kind, kept),
    }
}

/// The lines of an item. The directory that was read last is kept from call to call.
pub(crate) fn item_lines<B: Book>(
    alloc: Global,
    book: &mut B,
    rev: RevNum,
    items: &ItemsByText,
    item: &ChangeItem,
    kept: &mut Option<KeptDir>,
) -> Result<Vec<u8>, ReadError>
    ensures told { (look : RevisionBytes) → Knows (B.told book.old).revs rev look → IsKept look kept.old → Answers (λ v. v.items) (ItemLines look rev (by_text_value items.now) item.now) result }
    ensures dir { (look : RevisionBytes) → Knows (B.told book.old).revs rev look → IsKept look kept.old → IsKept look kept.new }
    ensures kept { Keeps (B.told book.old) (B.told book.new) }
    ensures cause { HasCause (B.faults book.old) (B.faults book.new) result }
{
    let kind = kind_of(alloc, book, rev, item)?;
    action_lines(alloc, book, rev, items, item, kind, kept)
}
