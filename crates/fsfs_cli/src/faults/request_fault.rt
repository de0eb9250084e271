//! What is asked for and can't be had.
ghost use Rattle.std.specs.Prelude.{◌≡◌};
ghost use Rattle.fsfs_cli.specs.Pieces.{request_front};

use crate::faults::line::{FaultText, with_values, word};
use crate::faults::values::{bad_script_text, numbers_text, txn_value_text};
use fsfs_base::{FsPath, RevNum, TxnName};
use fsfs_script::BadScript;
use thiserror::Error;

/// What is asked for isn't there, or is of another kind; or what is to be made is there.
#[derive(Debug, Drop, Error)]
pub enum RequestFault {
    /// Nothing stands at the path.
    #[error("there is no such node")]
    NotFound(FsPath),
    /// A file stands at the path, and names follow behind it.
    #[error("a file is no directory")]
    NotDir(FsPath),
    /// A directory stands at the path.
    #[error("a directory is no file")]
    NotFile(FsPath),
    /// The revision is above the youngest.
    #[error("there is no such revision")]
    NoRev { asked: u64, youngest: RevNum },
    /// There is no transaction of this name.
    #[error("there is no such transaction")]
    NoTxn(TxnName),
    /// There is a repository at the path.
    #[error("there is a repository")]
    AlreadyRepo,
    /// There is no repository of this type of filesystem at the path.
    #[error("there is no repository")]
    NotRepo,
    /// Something stands at the path.
    #[error("there is such a node")]
    Exists(FsPath),
    /// The root can't be taken away.
    #[error("the root stays")]
    RootFixed,
    /// An edit at the path would have to change counts of mergeinfo.
    #[error("mergeinfo is not kept")]
    Mergeinfo(FsPath),
    /// The input is no job script.
    #[error("the input is no job script")]
    BadScript(BadScript),
}

impl RequestFault {
    // The name, and the values behind it; of a path the space alone.
    pub(crate) fn front(&self) -> FaultText
        ensures { result.bytes ≡ request_front self.now }
    {
        match self {
            RequestFault::NotFound(_) => word("NotFound "),
            RequestFault::NotDir(_) => word("NotDir "),
            RequestFault::NotFile(_) => word("NotFile "),
            RequestFault::NoRev { asked, youngest } => {
                with_values(
                    "NoRev",
                    numbers_text(*asked, youngest.get() as u64).as_str(),
                )
            }
            RequestFault::NoTxn(name) => with_values("NoTxn", txn_value_text(name).as_str()),
            RequestFault::AlreadyRepo => word("AlreadyRepo"),
            RequestFault::NotRepo => word("NotRepo"),
            RequestFault::Exists(_) => word("Exists "),
            RequestFault::RootFixed => word("RootFixed /"),
            RequestFault::Mergeinfo(_) => word("Mergeinfo "),
            RequestFault::BadScript(bad) => {
                with_values("BadScript", bad_script_text(bad).as_str())
            }
        }
    }
}
