//! Why a script is refused.
ghost use Rattle.std.specs.Prelude.{◌≡◌};

use std::alloc::{AllocError, AllocFailed};

/// Why a script is no list of jobs.
#[derive(Clone, Copy, Debug, PartialEq, Eq)]
pub enum Why {
    /// A word that may not stand there.
    Word,
    /// No decimal number; for a base no `head` either.
    Number,
    /// No path.
    Path,
    /// No name of a property, or none of an author.
    Name,
    /// A word is not UTF-8.
    NotUtf8,
    /// A line has more than 8,192 bytes.
    LongLine,
    /// Another byte than a newline follows a text.
    NoNewline,
    /// The script ends within a line, a text or a job.
    Short,
}

/// Why a command is refused.
#[derive(Clone, Copy, Debug, PartialEq, Eq)]
pub enum Refusal {
    Bad(Why),
    /// A text of more than 2^30 bytes is announced.
    TextTooLong,
    /// A value or a log of more than 2^20 bytes is announced.
    PropTooLong,
    /// One more than 4,096 jobs begins.
    TooManyJobs,
}

/// A line was refused, or memory ran out.
#[derive(Clone, Copy)]
pub enum LineError {
    OutOfMemory,
    Refused(Refusal),
}

impl From<AllocError> for LineError {
    ghost use Rattle.fsfs_script.specs.declared.job_lines.refusal.LineError.TheVariants.{OutOfMemory};

    ghost from_gives = { λ _ e. e ≡ OutOfMemory };

    fn from(_error: AllocError) -> LineError {
        LineError::OutOfMemory
    }
}

impl<T: Drop> From<AllocFailed<T>> for LineError {
    ghost use Rattle.fsfs_script.specs.declared.job_lines.refusal.LineError.TheVariants.{OutOfMemory};

    ghost from_gives = { λ _ e. e ≡ OutOfMemory };

    fn from(_error: AllocFailed<T>) -> LineError {
        LineError::OutOfMemory
    }
}

impl From<Refusal> for LineError {
    ghost use Rattle.fsfs_script.specs.declared.job_lines.refusal.LineError.TheVariants.{Refused};

    ghost from_gives = { λ refusal e. e ≡ Refused refusal };

    fn from(refusal: Refusal) -> LineError {
        LineError::Refused(refusal)
    }
}
