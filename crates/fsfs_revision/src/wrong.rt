//! What is wrong with the bytes of revisions, and why nothing was read.
ghost use Rattle.std.specs.Prelude.{◌≡◌};
ghost use Rattle.fsfs_revision.specs.Damage.Damages.{damaged};
ghost use Rattle.fsfs_revision.specs.declared.wrong.ReadError.TheVariants.{Wrong as IsWrong};

use crate::damage::{Damage, DamageKind, RevOffset};
use fsfs_base::{RevNum, SmallFault};
use std::alloc::AllocError;
use thiserror::Error;

/// Why there are no bytes of a revision.
#[derive(Clone, Copy, Debug, PartialEq, Eq, Error)]
pub enum Refusal {
    /// The revision that was asked for is above the youngest.
    #[error("there is no revision {asked}; the youngest is {youngest}")]
    NoRev { asked: RevNum, youngest: RevNum },
    /// The revision's file is absent.
    #[error("the file of revision {rev} is absent")]
    Missing { rev: RevNum },
    /// The small file that says where the revision stands is not in its format.
    #[error("a small file is damaged")]
    Small(SmallFault),
}

/// What is wrong with the bytes of revisions, where a reading came to it.
#[derive(Clone, Copy, Debug, Error)]
pub enum Wrong {
    /// There are no bytes of a revision: it is above the youngest, its file is absent, or the small file that says where
    /// it stands is damaged.
    #[error("there are no bytes of a revision")]
    Refused(Refusal),
    /// The bytes of a revision are damaged, or a node-revision isn't the one that was named.
    #[error("a revision is damaged")]
    Damaged(Damage),
    /// A representation is a delta, which is not read; its header begins here.
    #[error("a representation is a delta")]
    Delta(RevOffset),
}

/// Why nothing was read: something is wrong with the bytes, or a failure, which says nothing of the bytes.
#[derive(Clone, Copy, Debug, Error)]
pub enum ReadError {
    #[error("out of memory")]
    OutOfMemory,
    /// A call of the disk failed, and the book's count of faults rose.
    #[error("the disk failed")]
    DiskFault,
    #[error("the bytes are wrong")]
    Wrong(Wrong),
}

impl ReadError {
    /// Damage at this place.
    pub fn damaged(at: RevOffset, what: DamageKind) -> ReadError
        ensures { result ≡ IsWrong (damaged at what) }
    {
        ReadError::Wrong(Wrong::Damaged(Damage { at, what }))
    }
}

impl From<AllocError> for ReadError {
    ghost use Rattle.fsfs_revision.specs.declared.wrong.ReadError.TheVariants.{OutOfMemory};

    ghost from_gives = { λ _ e. e ≡ OutOfMemory };

    fn from(_error: AllocError) -> ReadError {
        ReadError::OutOfMemory
    }
}

impl From<Wrong> for ReadError {
    ghost from_gives = { λ wrong e. e ≡ IsWrong wrong };

    fn from(wrong: Wrong) -> ReadError {
        ReadError::Wrong(wrong)
    }
}
