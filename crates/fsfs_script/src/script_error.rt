//! Why no job was read.
ghost use Rattle.std.specs.Prelude.{◌≡◌};
ghost use Rattle.fsfs_script.specs.Errors.{error_at, error_from};

use crate::stop::Stop;
use crate::{Refusal, Why};
use std::alloc::AllocError;
use thiserror::Error;

/// Where a script is no list of jobs, and why.
#[derive(Clone, Copy, Debug)]
pub struct BadScript {
    /// The line on which the command began; the first is 1.
    pub line: u64,
    pub why: Why,
}

/// Why no job was read.
#[derive(Clone, Copy, Debug, Error)]
pub enum ScriptError {
    #[error("the script is no list of jobs")]
    BadScript(BadScript),
    /// A text of more than 2^30 bytes is announced.
    #[error("a text is too long")]
    TextTooLong,
    /// A value or a log of more than 2^20 bytes is announced.
    #[error("a property's value is too long")]
    PropTooLong,
    /// One more job begins than a script may have.
    #[error("there are too many jobs")]
    TooManyJobs,
    /// The source failed, and its count of faults rose.
    #[error("the script could not be read")]
    ReadFault,
    #[error("out of memory")]
    OutOfMemory,
}

impl From<AllocError> for ScriptError {
    ghost use Rattle.fsfs_script.specs.declared.script_error.ScriptError.TheVariants.{OutOfMemory};

    ghost from_gives = { λ _ e. e ≡ OutOfMemory };

    fn from(_error: AllocError) -> ScriptError {
        ScriptError::OutOfMemory
    }
}

/// The error of a refusal of the command that began on this line.
fn refused_at(line: u64, refusal: Refusal) -> ScriptError
    ensures { result ≡ error_at line refusal }
{
    match refusal {
        Refusal::Bad(why) => ScriptError::BadScript(BadScript { line, why }),
        Refusal::TextTooLong => ScriptError::TextTooLong,
        Refusal::PropTooLong => ScriptError::PropTooLong,
        Refusal::TooManyJobs => ScriptError::TooManyJobs,
    }
}

/// The error where reading the command that began on this line stopped.
pub(crate) fn stopped_at(line: u64, stop: Stop) -> ScriptError
    ensures { result ≡ error_from line stop }
{
    match stop {
        Stop::Refused(refusal) => refused_at(line, refusal),
        Stop::ReadFault => ScriptError::ReadFault,
        Stop::OutOfMemory => ScriptError::OutOfMemory,
    }
}
