//! What failed outside.
ghost use Rattle.std.specs.Prelude.{◌≡◌};
ghost use Rattle.fsfs_cli.specs.Lines.{outside_text};

use crate::faults::line::{FaultText, with_values, word};
use fsfs_base::DiskPlace;
use thiserror::Error;

/// The outside failed.
#[derive(Clone, Copy, Debug, Error)]
pub enum OutsideFault {
    /// The path could not be mounted.
    #[error("the path could not be mounted")]
    Mount,
    /// A call of the disk failed.
    #[error("the disk failed")]
    Disk(DiskPlace),
    /// The input, the clock or the random bytes could not be had.
    #[error("the input, the clock or the random bytes could not be had")]
    Read,
    /// The output failed.
    #[error("the output failed")]
    Write,
    /// A call of a transaction's bench failed.
    #[error("a bench failed")]
    Bench,
    /// The write lock is stuck: a commit failed at this place before.
    #[error("the write lock is stuck")]
    Stuck(DiskPlace),
}

impl OutsideFault {
    // The name, and the values behind it.
    pub(crate) fn text(&self) -> FaultText
        ensures { result.bytes ≡ outside_text self.now }
    {
        match self {
            OutsideFault::Mount => word("MountFault"),
            OutsideFault::Disk(place) => with_values("DiskFault ", place.word()),
            OutsideFault::Read => word("ReadFault"),
            OutsideFault::Write => word("WriteFault"),
            OutsideFault::Bench => word("BenchFault"),
            OutsideFault::Stuck(place) => with_values("Stuck ", place.word()),
        }
    }
}
