//! Why a text is no path.

ghost use Rattle.std.specs.Prelude.{◌≡◌};
ghost use Rattle.fsfs_base.specs.declared.paths.bad_path.PathError.TheVariants.{Bad, OutOfMemory};

use std::alloc::{AllocError, AllocFailed};

/// The rule that a text breaks.
#[derive(Clone, Copy, Debug)]
pub enum PathFault {
    /// It doesn't begin with `/`.
    NotAbsolute,
    /// It has more than 4,096 bytes.
    PathTooLong,
    /// It has more than 128 names.
    TooDeep,
    /// A name is empty.
    EmptyName,
    /// A name has a byte below 32, or 127.
    Control,
    /// A name has more than 255 bytes.
    NameTooLong,
    /// A name is `.` or `..`.
    Dot,
}

/// A text that is no path: the rule that it breaks, and at which byte.
#[derive(Clone, Copy, Debug)]
pub struct BadPath {
    pub at: usize,
    pub why: PathFault,
}

/// A text is no path, or memory ran out.
#[derive(Clone, Copy)]
pub enum PathError {
    Bad(BadPath),
    OutOfMemory,
}

impl From<BadPath> for PathError {
    ghost from_gives = { λ bad e. e ≡ Bad bad };

    fn from(bad: BadPath) -> PathError {
        PathError::Bad(bad)
    }
}

impl From<AllocError> for PathError {
    ghost from_gives = { λ _ e. e ≡ OutOfMemory };

    fn from(_error: AllocError) -> PathError {
        PathError::OutOfMemory
    }
}

impl<T: Drop> From<AllocFailed<T>> for PathError {
    ghost from_gives = { λ _ e. e ≡ OutOfMemory };

    fn from(_error: AllocFailed<T>) -> PathError {
        PathError::OutOfMemory
    }
}
