//! What is printed of a revision's properties.
ghost use Rattle.fsfs_revision.specs.Told.{Keeps};
ghost use Rattle.fsfs_look.specs.Written.{Writes, HasDiskCause, HasSinkCause};
ghost use Rattle.fsfs_look.specs.Revprops.Texts.{AuthorText, DateText, LogText, InfoText};

use crate::LookError;
use crate::piece::write_piece;
use crate::revprops::lines::{date_line, value, write_line, write_log};
use crate::revprops::reading::rev_props;
use fsfs_base::{RevNum, Sink};
use fsfs_revision::RevProps;
use std::alloc::Global;

/// Writes the author of a revision and the end of the line. Nothing is written where something is wrong with the property
/// file.
pub fn author<B: RevProps, S: Sink>(
    alloc: Global,
    book: &mut B,
    rev: RevNum,
    sink: &mut S,
) -> Result<(), LookError>
    ensures read { Writes (AuthorText (B.may_read book.old) rev) (S.written sink.old) (S.written sink.new) result }
    ensures kept { Keeps (B.told book.old) (B.told book.new) }
    ensures cause { HasDiskCause (B.faults book.old) (B.faults book.new) result }
    ensures sink { HasSinkCause (S.faults sink.old) (S.faults sink.new) result }
{
    let pairs = rev_props(alloc, book, rev)?;
    write_line(sink, value(&pairs, b"svn:author"))
}

/// Writes the date of a revision in UTC and the end of the line, as `2014-07-21 09:25:14 +0000 (Mon, 21 Jul 2014)`; an empty
/// line where it has none. Nothing is written where something is wrong with the property file or the date.
pub fn date<B: RevProps, S: Sink>(
    alloc: Global,
    book: &mut B,
    rev: RevNum,
    sink: &mut S,
) -> Result<(), LookError>
    ensures read { Writes (DateText (B.may_read book.old) rev) (S.written sink.old) (S.written sink.new) result }
    ensures kept { Keeps (B.told book.old) (B.told book.new) }
    ensures cause { HasDiskCause (B.faults book.old) (B.faults book.new) result }
    ensures sink { HasSinkCause (S.faults sink.old) (S.faults sink.new) result }
{
    let pairs = rev_props(alloc, book, rev)?;
    let line = date_line(alloc, rev, &pairs)?;
    write_piece(sink, &line)
}

/// Writes the log of a revision and the end of the line. Nothing is written where something is wrong with the property file.
pub fn log<B: RevProps, S: Sink>(
    alloc: Global,
    book: &mut B,
    rev: RevNum,
    sink: &mut S,
) -> Result<(), LookError>
    ensures read { Writes (LogText (B.may_read book.old) rev) (S.written sink.old) (S.written sink.new) result }
    ensures kept { Keeps (B.told book.old) (B.told book.new) }
    ensures cause { HasDiskCause (B.faults book.old) (B.faults book.new) result }
    ensures sink { HasSinkCause (S.faults sink.old) (S.faults sink.new) result }
{
    let pairs = rev_props(alloc, book, rev)?;
    write_line(sink, value(&pairs, b"svn:log"))
}

/// Writes the lines of a revision's author, its date, the length of its log in bytes, and its log. Nothing is written where
/// something is wrong with the property file or the date.
pub fn info<B: RevProps, S: Sink>(
    alloc: Global,
    book: &mut B,
    rev: RevNum,
    sink: &mut S,
) -> Result<(), LookError>
    ensures read { Writes (InfoText (B.may_read book.old) rev) (S.written sink.old) (S.written sink.new) result }
    ensures kept { Keeps (B.told book.old) (B.told book.new) }
    ensures cause { HasDiskCause (B.faults book.old) (B.faults book.new) result }
    ensures sink { HasSinkCause (S.faults sink.old) (S.faults sink.new) result }
{
    let pairs = rev_props(alloc, book, rev)?;
    let line = date_line(alloc, rev, &pairs)?;
    write_line(sink, value(&pairs, b"svn:author"))?;
    write_piece(sink, &line)?;
    write_log(sink, pairs.get(b"svn:log"))
}
