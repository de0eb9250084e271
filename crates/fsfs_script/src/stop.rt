//! Why reading stops.
ghost use Rattle.std.specs.Prelude.{◌≡◌};

use crate::{LineError, Refusal};
use fsfs_base::Failed;
use std::alloc::{AllocError, AllocFailed};

/// Why reading a command stops.
#[derive(Clone, Copy, Debug, PartialEq, Eq)]
pub(crate) enum Stop {
    Refused(Refusal),
    ReadFault,
    OutOfMemory,
}

impl From<AllocError> for Stop {
    ghost use Rattle.fsfs_script.specs.declared.stop.Stop.TheVariants.{OutOfMemory};

    ghost from_gives = { λ _ e. e ≡ OutOfMemory };

    fn from(_error: AllocError) -> Stop {
        Stop::OutOfMemory
    }
}

impl<T: Drop> From<AllocFailed<T>> for Stop {
    ghost use Rattle.fsfs_script.specs.declared.stop.Stop.TheVariants.{OutOfMemory};

    ghost from_gives = { λ _ e. e ≡ OutOfMemory };

    fn from(_error: AllocFailed<T>) -> Stop {
        Stop::OutOfMemory
    }
}

impl From<Failed> for Stop {
    ghost use Rattle.fsfs_script.specs.declared.stop.Stop.TheVariants.{ReadFault};

    ghost from_gives = { λ _ e. e ≡ ReadFault };

    fn from(_error: Failed) -> Stop {
        Stop::ReadFault
    }
}

impl From<Refusal> for Stop {
    ghost use Rattle.fsfs_script.specs.declared.stop.Stop.TheVariants.{Refused};

    ghost from_gives = { λ refusal e. e ≡ Refused refusal };

    fn from(refusal: Refusal) -> Stop {
        Stop::Refused(refusal)
    }
}

impl From<LineError> for Stop {
    ghost use Rattle.fsfs_script.specs.Errors.{stop_from};

    ghost from_gives = { λ error e. e ≡ stop_from error };

    fn from(error: LineError) -> Stop {
        match error {
            LineError::OutOfMemory => Stop::OutOfMemory,
            LineError::Refused(refusal) => Stop::Refused(refusal),
        }
    }
}
