//! What is wrong with the files of a repository.
ghost use Rattle.std.specs.Prelude.{◌≡◌};
ghost use Rattle.fsfs_cli.specs.Lines.{repository_text};

use crate::faults::line::{FaultText, with_values, word};
use crate::faults::values::{at_text, damage_text, number_text, small_text};
use fsfs_base::SmallFault;
use fsfs_revision::{Damage, RevOffset};
use thiserror::Error;

/// The files of the repository are damaged, or in a form that is not read.
#[derive(Clone, Copy, Debug, Error)]
pub enum RepositoryFault {
    /// The repository has another format.
    #[error("the repository has another format")]
    OtherFormat(u64),
    /// The repository is not sharded.
    #[error("the repository is not sharded")]
    Linear,
    /// A small file of the repository is not in its format.
    #[error("a small file is damaged")]
    Small(SmallFault),
    /// A revision is damaged.
    #[error("a revision is damaged")]
    Corrupt(Damage),
    /// A representation is a delta, which is not read.
    #[error("a representation is a delta")]
    Delta(RevOffset),
}

impl RepositoryFault {
    // The name, and the values behind it.
    pub(crate) fn text(&self) -> FaultText
        ensures { result.bytes ≡ repository_text self.now }
    {
        match self {
            RepositoryFault::OtherFormat(found) => {
                with_values("OtherFormat", number_text(*found).as_str())
            }
            RepositoryFault::Linear => word("Linear"),
            RepositoryFault::Small(small) => with_values("Small", small_text(small).as_str()),
            RepositoryFault::Corrupt(damage) => {
                with_values("Corrupt", damage_text(damage).as_str())
            }
            RepositoryFault::Delta(at) => with_values("Delta", at_text(*at).as_str()),
        }
    }
}
