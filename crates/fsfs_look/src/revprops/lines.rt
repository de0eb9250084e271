//! The lines of a value, of a date and of a log.
ghost use Rattle.std.specs.Prelude.{◌≡◌, ◌++◌, OnOk, OnErr, IfErr, Some, option_map, unwrap_or, [], codes};
ghost use Rattle.fsfs_tree.specs.Dated.{date_name};
ghost use Rattle.fsfs_base.specs.Streams.{Adds};
ghost use Rattle.fsfs_base.specs.Output.{AddsFront};
ghost use Rattle.fsfs_revision.specs.Damage.Readings.{Answers};
ghost use Rattle.fsfs_revision.specs.Damage.Causes.{IsQuiet};
ghost use Rattle.fsfs_look.specs.declared.look_error.LookError.TheVariants.{WriteFault};
ghost use Rattle.fsfs_look.specs.Written.{HasSinkCause};
ghost use Rattle.fsfs_look.specs.Revprops.Texts.{value_of, log_lines, DateLine};

use crate::LookError;
use crate::piece::write_piece;
use crate::revprops::date::put_date;
use fsfs_base::{Pairs, RevNum, Sink, read_date};
use fsfs_revision::{DamageKind, ReadError, RevOffset};
use itoa::Buffer;
use std::alloc::Global;

/// The value of a name, or nothing.
pub(crate) fn value<'a>(pairs: &'a Pairs, name: &[u8]) -> &'a [u8]
    ensures { result.now ≡ unwrap_or (value_of pairs.now name.now) [] }
{
    match pairs.get(name) {
        Some(value) => value.as_slice(),
        None => &[],
    }
}

// The line of a stored date.
fn stored_line(alloc: Global, rev: RevNum, stored: &[u8]) -> Result<Vec<u8>, ReadError>
    ensures told { Answers (λ v. v.items) (DateLine rev (Some stored.now)) result }
    ensures quiet { IsQuiet result }
{
    match read_date(stored) {
        None => Err(ReadError::damaged(RevOffset { rev, offset: 0 }, DamageKind::BadDate)),
        Some(date_time) => {
            let mut line = Vec::new(alloc);
            put_date(&mut line, date_time)?;
            line.extend_from_slice(b"\n")?;
            Ok(line)
        }
    }
}

/// The line of the date among the properties of a revision, an empty one where there is none. A date in another form than
/// stored dates have is BadDate at 0.
pub(crate) fn date_line(alloc: Global, rev: RevNum, pairs: &Pairs) -> Result<Vec<u8>, ReadError>
    ensures told { Answers (λ v. v.items) (DateLine rev (value_of pairs.now date_name)) result }
    ensures quiet { IsQuiet result }
{
    match pairs.get(b"svn:date") {
        None => {
            let line = Vec::from_slice(alloc, b"\n")?;
            Ok(line)
        }
        Some(stored) => stored_line(alloc, rev, stored),
    }
}

/// Writes a text and the end of its line.
pub(crate) fn write_line<S: Sink>(sink: &mut S, text: &[u8]) -> Result<(), LookError>
    ensures added { OnOk result (Adds (S.written sink.old) (S.written sink.new) (text.now ++ codes "\n")) }
    ensures part { OnErr result (AddsFront (S.written sink.old) (S.written sink.new) (text.now ++ codes "\n")) }
    ensures failed { IfErr result (λ e. e ≡ WriteFault) }
    ensures sink { HasSinkCause (S.faults sink.old) (S.faults sink.new) result }
{
    write_piece(sink, text)?;
    write_piece(sink, b"\n")
}

/// Writes the lines of a log: its length in bytes, and itself; `0` alone where there is none.
pub(crate) fn write_log<S: Sink>(sink: &mut S, log: Option<&Vec<u8>>) -> Result<(), LookError>
    ensures added { OnOk result (Adds (S.written sink.old) (S.written sink.new) (log_lines (option_map (λ v. v.now.items) log.entry))) }
    ensures part { OnErr result (AddsFront (S.written sink.old) (S.written sink.new) (log_lines (option_map (λ v. v.now.items) log.entry))) }
    ensures failed { IfErr result (λ e. e ≡ WriteFault) }
    ensures sink { HasSinkCause (S.faults sink.old) (S.faults sink.new) result }
{
    match log {
        None => write_line(sink, b"0"),
        Some(log) => {
            let mut size = Buffer::new();
            write_line(sink, size.format(log.len() as u64).as_bytes())?;
            write_line(sink, log)
        }
    }
}
