//! Writing a whole text.
ghost use Rattle.std.specs.Prelude.{◌≡◌, ◌≤◌, ℕ, Option, Some, take, length};
ghost use Rattle.fsfs_base.specs.Failures.{Rose};
ghost use Rattle.fsfs_base.specs.Output.{Prints};

use crate::Failed;
use crate::streams::Sink;

/// Writes a text, or after a failure a first part of it. A sink may take fewer bytes at a time than it is given.
pub fn print<S: Sink>(sink: &mut S, text: &[u8]) -> Result<(), Failed>
    ensures printed { Prints (S.written sink.old) (S.written sink.new) text.now (S.faults sink.old) (S.faults sink.new) result }
{
    let mut rest = text;
    while !rest.is_empty() {
        let count = sink.write(rest)?;
        rest = &rest[count..];
    }
    Ok(())
}
