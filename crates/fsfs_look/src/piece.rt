//! Writing a part of a look, and the lines that are kept until they fill a piece.
ghost use Rattle.std.specs.Prelude.{◌≡◌, ◌++◌, ℕ, List, [], OnOk, OnErr, IfErr};
ghost use Rattle.fsfs_base.specs.Streams.{Adds};
ghost use Rattle.fsfs_base.specs.Output.{AddsFront};
ghost use Rattle.fsfs_look.specs.declared.look_error.LookError.TheVariants.{WriteFault};
ghost use Rattle.fsfs_look.specs.Walks.{EndsSo};
ghost use Rattle.fsfs_look.specs.Written.{HasDiskCause, HasSinkCause};

use crate::look_error::LookError;
use fsfs_base::{Sink, print};

// How many bytes of lines are kept before they are written.
const PIECE: usize = 8192;

/// Writes a part of a look, or after a failure a first part of it.
pub fn write_piece<S: Sink>(sink: &mut S, text: &[u8]) -> Result<(), LookError>
    ensures added { OnOk result (Adds (S.written sink.old) (S.written sink.new) text.now) }
    ensures part { OnErr result (AddsFront (S.written sink.old) (S.written sink.new) text.now) }
    ensures failed { IfErr result (λ e. e ≡ WriteFault) }
    ensures sink { HasSinkCause (S.faults sink.old) (S.faults sink.new) result }
{
    match print(sink, text) {
        Ok(()) => Ok(()),
        Err(_) => Err(LookError::WriteFault),
    }
}

// Writes the lines, and keeps none.
fn write_lines<S: Sink>(sink: &mut S, lines: &mut Vec<u8>) -> Result<(), LookError>
    ensures added { OnOk result (Adds (S.written sink.old) (S.written sink.new) lines.old.items) }
    ensures none { OnOk result (lines.new.items ≡ []) }
    ensures part { OnErr result (AddsFront (S.written sink.old) (S.written sink.new) lines.old.items) }
    ensures failed { IfErr result (λ e. e ≡ WriteFault) }
    ensures sink { HasSinkCause (S.faults sink.old) (S.faults sink.new) result }
{
    write_piece(sink, lines)?;
    lines.clear();
    Ok(())
}

/// Writes the lines where they fill a piece, and keeps none of them then.
pub fn write_full<S: Sink>(sink: &mut S, lines: &mut Vec<u8>) -> Result<(), LookError>
    ensures added { OnOk result ((written : List ℕ) × Adds (S.written sink.old) (S.written sink.new) written × (lines.old.items ≡ written ++ lines.new.items)) }
    ensures part { OnErr result (AddsFront (S.written sink.old) (S.written sink.new) lines.old.items) }
    ensures failed { IfErr result (λ e. e ≡ WriteFault) }
    ensures sink { HasSinkCause (S.faults sink.old) (S.faults sink.new) result }
{
    if lines.len() < PIECE {
        return Ok(());
    }
    write_lines(sink, lines)
}

/// Writes the last lines of a text that ended so: all of it, or all before what is refused. After a failure nothing more is
/// written.
pub fn write_last<S: Sink>(
    sink: &mut S,
    lines: &mut Vec<u8>,
    walked: Result<(), LookError>,
) -> Result<(), LookError>
    ensures ends { EndsSo lines.old.items (S.written sink.old) (S.written sink.new) walked result }
    ensures cause { (before now : ℕ) → HasDiskCause before now walked → HasDiskCause before now result }
    ensures sink { (before : ℕ) → HasSinkCause before (S.faults sink.old) walked → HasSinkCause before (S.faults sink.new) result }
{
    match walked {
        Ok(()) => write_lines(sink, lines),
        Err(LookError::Fault(fault)) => {
            write_lines(sink, lines)?;
            Err(LookError::Fault(fault))
        }
        Err(LookError::OutOfMemory) => Err(LookError::OutOfMemory),
        Err(LookError::DiskFault) => Err(LookError::DiskFault),
        Err(LookError::WriteFault) => Err(LookError::WriteFault),
    }
}
