//! Why words are not read.
ghost use Rattle.std.specs.Prelude.{◌≡◌};
ghost use Rattle.fsfs_cli.specs.declared.faults.words_fault.WordsFault.TheVariants.{Memory};

use fsfs_base::{BadPath, PathError};
use std::alloc::{AllocError, AllocFailed};

/// Why words are not read.
#[derive(Clone, Copy)]
pub enum WordsFault {
    /// They are those of no command.
    Usage,
    /// A word that means a path means none: at which byte of the path's text, and why.
    BadPath(BadPath),
    /// Memory was wanting.
    Memory,
}

impl From<AllocError> for WordsFault {
    ghost from_gives = { λ _ e. e ≡ Memory };

    fn from(_error: AllocError) -> WordsFault {
        WordsFault::Memory
    }
}

impl<T: Drop> From<AllocFailed<T>> for WordsFault {
    ghost from_gives = { λ _ e. e ≡ Memory };

    fn from(_error: AllocFailed<T>) -> WordsFault {
        WordsFault::Memory
    }
}

impl From<PathError> for WordsFault {
    ghost use Rattle.fsfs_cli.specs.WordsFaults.{fault_from};

    ghost from_gives = { λ e f. f ≡ fault_from e };

    fn from(error: PathError) -> WordsFault {
        match error {
            PathError::Bad(bad) => WordsFault::BadPath(bad),
            PathError::OutOfMemory => WordsFault::Memory,
        }
    }
}
