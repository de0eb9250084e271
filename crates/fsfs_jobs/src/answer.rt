//! What became of a job.
ghost use Rattle.std.specs.Prelude.{◌≡◌};
ghost use Rattle.fsfs_jobs.specs.Lines.{status_after};

use fsfs_base::{FsPath, HexDigest, RevNum};
use fsfs_cli::{Fault, status};

/// What became of a job: what its line tells.
#[derive(Drop)]
pub enum JobAnswer {
    /// It was committed as this revision.
    Committed(RevNum),
    /// The text of a file was read.
    Read(TextRead),
    /// It clashes with this revision; the path is the first at which it does.
    Conflict { head: RevNum, path: FsPath },
    /// It was refused or failed at the command that began on this line of the script.
    Stopped { line: u64, fault: Fault },
}

/// A text that was read.
#[derive(Clone, Copy)]
pub struct TextRead {
    /// The revision in which it stands.
    pub rev: RevNum,
    /// Its number of bytes.
    pub size: u64,
    /// Their MD5.
    pub md5: HexDigest<16>,
}

impl JobAnswer {
    /// The status that the answer asks for: 1 for a conflict, that of the fault where there is one, else 0.
    pub fn status(&self) -> u8
        ensures { result ≡ status_after self.now }
    {
        match self {
            JobAnswer::Committed(_) => 0,
            JobAnswer::Read(_) => 0,
            JobAnswer::Conflict { .. } => 1,
            JobAnswer::Stopped { fault, .. } => status(fault),
        }
    }
}
