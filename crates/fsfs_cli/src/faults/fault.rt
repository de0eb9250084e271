//! What a command answers but success.
ghost use Rattle.fsfs_cli.specs.CommandFaults.{IsFromLook};

use crate::WordsFault;
use crate::faults::bad_words::BadWords;
use crate::faults::limit_fault::LimitFault;
use crate::faults::outside_fault::OutsideFault;
use crate::faults::repository_fault::RepositoryFault;
use crate::faults::request_fault::RequestFault;
use fsfs_base::{CreateFault, FsPath, OpenFault};
use fsfs_revision::{Damage, DamageKind, Refusal, RevOffset, Wrong};
use fsfs_script::ScriptError;
use fsfs_stands::LookFault;
use std::alloc::Global;
use thiserror::Error;

/// Why a command didn't do what its words say, by groups: the group alone decides the program's status. The printed words of
/// a kind are a row of its group's.
#[derive(Debug, Drop, Error)]
pub enum Fault {
    /// The words ask for nothing.
    #[error(transparent)]
    Words(BadWords),
    /// What they ask for can't be had.
    #[error(transparent)]
    Request(RequestFault),
    /// The files of the repository are damaged, or in a form that is not read.
    #[error(transparent)]
    Repository(RepositoryFault),
    /// The outside failed.
    #[error(transparent)]
    Outside(OutsideFault),
    /// Memory was wanting.
    #[error("out of memory")]
    Memory,
    /// A limit was reached.
    #[error(transparent)]
    Limit(LimitFault),
}

impl From<WordsFault> for Fault {
    ghost use Rattle.std.specs.Prelude.{◌≡◌};
    ghost use Rattle.fsfs_cli.specs.CommandFaults.{fault_from_words};

    ghost from_gives = { λ e f. f ≡ fault_from_words e };

    fn from(fault: WordsFault) -> Fault {
        match fault {
            WordsFault::Usage => Fault::Words(BadWords::Usage),
            WordsFault::BadPath(bad) => Fault::Words(BadWords::BadPath(bad)),
            WordsFault::Memory => Fault::Memory,
        }
    }
}

impl From<CreateFault> for Fault {
    ghost use Rattle.std.specs.Prelude.{◌≡◌};
    ghost use Rattle.fsfs_cli.specs.CommandFaults.{fault_from_create};

    ghost from_gives = { λ e f. f ≡ fault_from_create e };

    fn from(fault: CreateFault) -> Fault {
        match fault {
            CreateFault::AlreadyRepo => Fault::Request(RequestFault::AlreadyRepo),
            CreateFault::DiskFault(place) => Fault::Outside(OutsideFault::Disk(place)),
            CreateFault::Memory => Fault::Memory,
        }
    }
}

impl From<OpenFault> for Fault {
    ghost use Rattle.std.specs.Prelude.{◌≡◌};
    ghost use Rattle.fsfs_cli.specs.CommandFaults.{fault_from_open};

    ghost from_gives = { λ e f. f ≡ fault_from_open e };

    fn from(fault: OpenFault) -> Fault {
        match fault {
            OpenFault::NotRepo => Fault::Request(RequestFault::NotRepo),
            OpenFault::OtherFormat(found) => Fault::Repository(RepositoryFault::OtherFormat(found)),
            OpenFault::Linear => Fault::Repository(RepositoryFault::Linear),
            OpenFault::Small(small) => Fault::Repository(RepositoryFault::Small(small)),
            OpenFault::DiskFault(place) => Fault::Outside(OutsideFault::Disk(place)),
            OpenFault::Memory => Fault::Memory,
        }
    }
}

impl From<Refusal> for Fault {
    ghost use Rattle.std.specs.Prelude.{◌≡◌};
    ghost use Rattle.fsfs_cli.specs.CommandFaults.{fault_from_refusal};

    ghost from_gives = { λ e f. f ≡ fault_from_refusal e };

    fn from(refusal: Refusal) -> Fault {
        match refusal {
            Refusal::NoRev { asked, youngest } => Fault::Request(RequestFault::NoRev {
                asked: asked.get() as u64,
                youngest,
            }),
            Refusal::Missing { rev } => Fault::Repository(RepositoryFault::Corrupt(Damage {
                at: RevOffset { rev, offset: 0 },
                what: DamageKind::Missing,
            })),
            Refusal::Small(small) => Fault::Repository(RepositoryFault::Small(small)),
        }
    }
}

impl From<Wrong> for Fault {
    ghost use Rattle.std.specs.Prelude.{◌≡◌};
    ghost use Rattle.fsfs_cli.specs.CommandFaults.{fault_from_wrong};

    ghost from_gives = { λ e f. f ≡ fault_from_wrong e };

    fn from(wrong: Wrong) -> Fault {
        match wrong {
            Wrong::Refused(refusal) => Fault::from(refusal),
            Wrong::Damaged(damage) => Fault::Repository(RepositoryFault::Corrupt(damage)),
            Wrong::Delta(at) => Fault::Repository(RepositoryFault::Delta(at)),
        }
    }
}

impl From<ScriptError> for Fault {
    ghost use Rattle.std.specs.Prelude.{◌≡◌};
    ghost use Rattle.fsfs_cli.specs.CommandFaults.{fault_from_script};

    ghost from_gives = { λ e f. f ≡ fault_from_script e };

    fn from(error: ScriptError) -> Fault {
        match error {
            ScriptError::BadScript(bad) => Fault::Request(RequestFault::BadScript(bad)),
            ScriptError::TextTooLong => Fault::Limit(LimitFault::TextTooLong),
            ScriptError::PropTooLong => Fault::Limit(LimitFault::PropTooLong),
            ScriptError::TooManyJobs => Fault::Limit(LimitFault::TooManyJobs),
            ScriptError::ReadFault => Fault::Outside(OutsideFault::Read),
            ScriptError::OutOfMemory => Fault::Memory,
        }
    }
}

impl Fault {
    /// The fault of a look at this path: where nothing was found or a file is no directory, the path down to there.
    pub fn of_look(alloc: Global, path: &FsPath, fault: LookFault) -> Fault
        ensures { IsFromLook path.now fault result }
    {
        match fault {
            LookFault::NotFound { names } => match path.prefix(alloc, names.min(path.depth())) {
                Ok(above) => Fault::Request(RequestFault::NotFound(above)),
                Err(_) => Fault::Memory,
            },
            LookFault::NotDir { names } => match path.prefix(alloc, names.min(path.depth())) {
                Ok(above) => Fault::Request(RequestFault::NotDir(above)),
                Err(_) => Fault::Memory,
            },
            LookFault::NotFile => match path.clone() {
                Ok(whole) => Fault::Request(RequestFault::NotFile(whole)),
                Err(_) => Fault::Memory,
            },
            LookFault::Wrong(wrong) => Fault::from(wrong),
        }
    }
}
