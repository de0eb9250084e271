//! The jobs of a script.
ghost use Rattle.std.specs.Prelude.{◌≡◌, ◌++◌, ◌∷◌, [], OnOk};

use crate::job_lines::edit::Edit;
use crate::job_lines::texts::{Author, Text};
use fsfs_base::FsPath;
use std::alloc::{AllocError, Global};
use std::marker::Model;

/// The revision that a job is about.
#[derive(Clone, Copy)]
pub enum Base {
    /// `head`: the youngest as the job starts.
    Youngest,
    /// This number, as it is written: there may be no such revision.
    Number(u64),
}

/// A job of a script.
#[derive(Drop)]
pub enum Job {
    /// `job` to `commit`: edits that are committed together.
    Commit(CommitJob),
    /// `read`: the text of a file is read.
    Read(ReadJob),
}

/// Edits over a revision, in their order, and what is said of them.
#[derive(Drop)]
pub struct CommitJob {
    /// The line of `job`; the first line of a script is 1.
    pub line: u64,
    pub base: Base,
    pub author: Option<Author>,
    pub log: Option<Text>,
    pub steps: Steps,
}

/// The text of a file in a revision.
#[derive(Drop)]
pub struct ReadJob {
    /// The line of `read`.
    pub line: u64,
    pub base: Base,
    pub path: FsPath,
}

/// An edit, and the line on which it began.
#[derive(Drop)]
pub struct Step {
    pub line: u64,
    pub edit: Edit,
}

/// The edits of a job in their order. A contract sees their list.
#[derive(Drop)]
pub struct Steps {
    steps: Vec<Step>,
}

impl Model for Steps {
    ghost use Rattle.std.specs.Prelude.{List};
    ghost use Rattle.fsfs_script.specs.declared.job_lines.job.Step.{Step};

    ghost Value = { List Step };

    ghost view = { λ a. a.steps.items };
}

impl Steps {
    /// No edits.
    pub fn new(alloc: Global) -> Steps
        ensures { result ≡ [] }
    {
        Steps {
            steps: Vec::new(alloc),
        }
    }

    /// Adds an edit at the end.
    pub fn push(&mut self, step: Step) -> Result<(), AllocError>
        ensures { OnOk result (self.new ≡ self.old ++ step ∷ []) }
    {
        self.steps.push(step)?;
        Ok(())
    }

    /// The edits.
    pub fn as_slice(&self) -> &[Step]
        ensures { result.now ≡ self.now }
    {
        self.steps.as_slice()
    }
}
