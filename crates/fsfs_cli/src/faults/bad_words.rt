//! What is wrong with the words.
ghost use Rattle.std.specs.Prelude.{◌≡◌};
ghost use Rattle.fsfs_cli.specs.Lines.{words_text};

use crate::faults::line::{FaultText, with_values, word};
use crate::faults::values::bad_path_text;
use fsfs_base::BadPath;
use thiserror::Error;

/// The words ask for nothing.
#[derive(Clone, Copy, Debug, Error)]
pub enum BadWords {
    /// They are those of no command.
    #[error("usage")]
    Usage,
    /// A word that means a path in the repository means none.
    #[error("a text is no path")]
    BadPath(BadPath),
}

impl BadWords {
    // The name, and the values behind it.
    pub(crate) fn text(&self) -> FaultText
        ensures { result.bytes ≡ words_text self.now }
    {
        match self {
            BadWords::Usage => word("Usage"),
            BadWords::BadPath(bad) => with_values("BadPath", bad_path_text(bad).as_str()),
        }
    }
}
