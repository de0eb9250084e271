//! Whole jobs.
ghost use Rattle.std.specs.Prelude.{◌≡◌, IfOk};
ghost use Rattle.fsfs_base.specs.Counts.{HasCause};
ghost use Rattle.fsfs_script.specs.Places.{place_of};
ghost use Rattle.fsfs_script.specs.Errors.{IfReadFault};
ghost use Rattle.fsfs_script.specs.Jobs.{start, stage_after, with_command, FillsJob, Opens, ReadsJob, ReadsNext};

use crate::ahead::Ahead;
use crate::commands::{Command, Next};
use crate::script_error::{ScriptError, stopped_at};
use crate::{Base, CommitJob, Job, OpeningLine, ReadJob, Stage, Step, Steps};
use fsfs_base::Source;
use std::alloc::{AllocError, Global};

fn begun(alloc: Global, line: u64, base: Base) -> CommitJob
    ensures { result ≡ start line base }
{
    CommitJob {
        line,
        base,
        author: None,
        log: None,
        steps: Steps::new(alloc),
    }
}

// Adds a command that began on this line to a job, and answers how far the job has come.
fn take(job: &mut CommitJob, line: u64, command: Command) -> Result<Stage, AllocError>
    ensures { IfOk result (λ stage. (stage ≡ stage_after command) × (job.new ≡ with_command line command job.old)) }
{
    match command {
        Command::Author(author) => {
            job.author = Some(author);
            Ok(Stage::AfterAuthor)
        }
        Command::Log(text) => {
            job.log = Some(text);
            Ok(Stage::InEdits)
        }
        Command::Edit(edit) => {
            job.steps.push(Step { line, edit })?;
            Ok(Stage::InEdits)
        }
    }
}

impl Ahead {
    // The commands of a job, up to its end. (No memory holds 2^64 commands.)
    fn commands<S: Source>(
        &mut self,
        alloc: Global,
        source: &mut S,
        job: &mut CommitJob,
    ) -> Result<(), ScriptError>
        ensures given { FillsJob (place_of (S.remaining source.old) self.old) (place_of (S.remaining source.new) self.new) job.old job.new result }
        ensures cause { HasCause IfReadFault (S.faults source.old) (S.faults source.new) result }
    {
        let mut stage = Stage::AfterJob;
        for _ in 0..u64::MAX {
            let line = self.line();
            match self.next(alloc, source, stage) {
                Err(stop) => return Err(stopped_at(line, stop)),
                Ok(Next::Commit) => return Ok(()),
                Ok(Next::Command(command)) => stage = take(job, line, command)?,
            }
        }
        Err(ScriptError::OutOfMemory)
    }

    // The first line of a job.
    fn open<S: Source>(
        &mut self,
        alloc: Global,
        source: &mut S,
        is_full: bool,
    ) -> Result<OpeningLine, ScriptError>
        ensures given { Opens is_full (place_of (S.remaining source.old) self.old) (place_of (S.remaining source.new) self.new) result }
        ensures cause { HasCause IfReadFault (S.faults source.old) (S.faults source.new) result }
    {
        let line = self.line();
        match self.opening(alloc, source, is_full) {
            Err(stop) => Err(stopped_at(line, stop)),
            Ok(opening) => Ok(opening),
        }
    }

    /// The job that begins here.
    pub(crate) fn job<S: Source>(
        &mut self,
        alloc: Global,
        source: &mut S,
        is_full: bool,
    ) -> Result<Job, ScriptError>
        ensures given { ReadsJob is_full (place_of (S.remaining source.old) self.old) (place_of (S.remaining source.new) self.new) result }
        ensures cause { HasCause IfReadFault (S.faults source.old) (S.faults source.new) result }
    {
        let line = self.line();
        match self.open(alloc, source, is_full)? {
            OpeningLine::Read(base, path) => Ok(Job::Read(ReadJob { line, base, path })),
            OpeningLine::Job(base) => {
                let mut job = begun(alloc, line, base);
                self.commands(alloc, source, &mut job)?;
                Ok(Job::Commit(job))
            }
        }
    }

    /// The next job; none where only empty lines are left.
    pub(crate) fn next_job<S: Source>(
        &mut self,
        alloc: Global,
        source: &mut S,
        is_full: bool,
    ) -> Result<Option<Job>, ScriptError>
        ensures given { ReadsNext is_full (place_of (S.remaining source.old) self.old) (place_of (S.remaining source.new) self.new) result }
        ensures cause { HasCause IfReadFault (S.faults source.old) (S.faults source.new) result }
    {
        let line = self.line();
        match self.skip_empty_lines(source) {
            Err(stop) => Err(stopped_at(line, stop)),
            Ok(false) => Ok(None),
            Ok(true) => {
                let job = self.job(alloc, source, is_full)?;
                Ok(Some(job))
            }
        }
    }
}
