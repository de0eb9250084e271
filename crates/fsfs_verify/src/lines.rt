//! The line of a revision that was verified.
ghost use Rattle.std.specs.Prelude.{◌≡◌, OnOk, OnErr, IfErr};
ghost use Rattle.fsfs_base.specs.Output.{AddsFront};
ghost use Rattle.fsfs_base.specs.Streams.{Adds};
ghost use Rattle.fsfs_look.specs.Written.{HasSinkCause};
ghost use Rattle.fsfs_look.specs.declared.look_error.LookError.TheVariants.{WriteFault};
ghost use Rattle.fsfs_verify.specs.Texts.{verified_line};

use arrayvec::ArrayString;
use fsfs_base::{RevNum, Sink};
use fsfs_look::{LookError, write_piece};
use itoa::Buffer;

/// Writes that nothing is wrong with a revision.
pub(crate) fn write_verified<S: Sink>(sink: &mut S, rev: RevNum) -> Result<(), LookError>
    ensures added { OnOk result (Adds (S.written sink.old) (S.written sink.new) (verified_line rev)) }
    ensures part { OnErr result (AddsFront (S.written sink.old) (S.written sink.new) (verified_line rev)) }
    ensures failed { IfErr result (λ e. e ≡ WriteFault) }
    ensures sink { HasSinkCause (S.faults sink.old) (S.faults sink.new) result }
{
    let mut line = ArrayString::<32>::new();
    line.push_str("* Verified revision ");
    line.push_str(Buffer::new().format(rev.get()));
    line.push_str(".\n");
    write_piece(sink, line.as_str().as_bytes())
}
