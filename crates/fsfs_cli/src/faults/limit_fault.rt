//! Which limit was reached.
ghost use Rattle.std.specs.Prelude.{◌≡◌};
ghost use Rattle.fsfs_cli.specs.Lines.{limit_text};

use crate::faults::line::{FaultText, word};
use thiserror::Error;

/// A limit of what can be kept was reached.
#[derive(Clone, Copy, Debug, Error)]
pub enum LimitFault {
    /// A text has more than 2^30 bytes.
    #[error("a text is too long")]
    TextTooLong,
    /// A property's value or a log has more than 2^20 bytes.
    #[error("a value is too long")]
    PropTooLong,
    /// A directory would have more than 2^20 entries.
    #[error("a directory has too many entries")]
    TooManyEntries,
    /// A script has more than 4,096 jobs.
    #[error("there are too many jobs")]
    TooManyJobs,
    /// All names of transactions were given.
    #[error("there are no more names of transactions")]
    NamesFull,
    /// The youngest revision has the last number that there is.
    #[error("there are no more numbers of revisions")]
    RevsFull,
}

impl LimitFault {
    // The name, and the limit behind it.
    pub(crate) fn text(&self) -> FaultText
        ensures { result.bytes ≡ limit_text self.now }
    {
        match self {
            LimitFault::TextTooLong => word("TextTooLong 1073741824"),
            LimitFault::PropTooLong => word("PropTooLong 1048576"),
            LimitFault::TooManyEntries => word("TooManyEntries 1048576"),
            LimitFault::TooManyJobs => word("TooManyJobs 4096"),
            LimitFault::NamesFull => word("NamesFull"),
            LimitFault::RevsFull => word("RevsFull 2147483647"),
        }
    }
}
