//! The commands of a script: a first line, and the lines or the text that belong to it.
ghost use Rattle.fsfs_base.specs.Counts.{HasCause};
ghost use Rattle.fsfs_script.specs.Places.{place_of};
ghost use Rattle.fsfs_script.specs.Errors.{IfRead};
ghost use Rattle.fsfs_script.specs.Reading.{Reads};
ghost use Rattle.fsfs_script.specs.Commands.{opening_at, to_at, copy_at, put_at, set_at, log_at, rest_at, next_at};

use crate::ahead::Ahead;
use crate::job_lines::lines::{command_line, opening_line, to_line};
use crate::stop::Stop;
use crate::{Author, CommandLine, CopyFrom, Edit, OpeningLine, PutText, SetProp, Stage, Text};
use fsfs_base::{FsPath, PropName, Source};
use std::alloc::Global;

/// A command inside a job.
#[derive(Drop)]
pub(crate) enum Command {
    Author(Author),
    Log(Text),
    Edit(Edit),
}

/// What comes next in a job.
#[derive(Drop)]
pub(crate) enum Next {
    Command(Command),
    /// `commit`: the end of the job.
    Commit,
}

impl Ahead {
    /// The first line of a job; where it is full, the script has all jobs that it may have.
    pub(crate) fn opening<S: Source>(
        &mut self,
        alloc: Global,
        source: &mut S,
        is_full: bool,
    ) -> Result<OpeningLine, Stop>
        ensures given { Reads (λ l. l) (opening_at is_full) (place_of (S.remaining source.old) self.old) (place_of (S.remaining source.new) self.new) result }
        ensures cause { HasCause IfRead (S.faults source.old) (S.faults source.new) result }
    {
        let line = self.take_line(alloc, source)?;
        let opening = opening_line(alloc, is_full, &line)?;
        Ok(opening)
    }

    // The path of a line `to`.
    fn to<S: Source>(&mut self, alloc: Global, source: &mut S) -> Result<FsPath, Stop>
        ensures given { Reads (λ p. p) to_at (place_of (S.remaining source.old) self.old) (place_of (S.remaining source.new) self.new) result }
        ensures cause { HasCause IfRead (S.faults source.old) (S.faults source.new) result }
    {
        let line = self.take_line(alloc, source)?;
        let path = to_line(alloc, &line)?;
        Ok(path)
    }

    fn log<S: Source>(&mut self, alloc: Global, source: &mut S, count: u64) -> Result<Next, Stop>
        ensures given { Reads (λ n. n) (log_at count) (place_of (S.remaining source.old) self.old) (place_of (S.remaining source.new) self.new) result }
        ensures cause { HasCause IfRead (S.faults source.old) (S.faults source.new) result }
    {
        let text = self.take_text(alloc, source, count)?;
        Ok(Next::Command(Command::Log(text)))
    }

    fn copy<S: Source>(
        &mut self,
        alloc: Global,
        source: &mut S,
        rev: u64,
        from: FsPath,
    ) -> Result<Next, Stop>
        ensures given { Reads (λ n. n) (copy_at rev from) (place_of (S.remaining source.old) self.old) (place_of (S.remaining source.new) self.new) result }
        ensures cause { HasCause IfRead (S.faults source.old) (S.faults source.new) result }
    {
        let to = self.to(alloc, source)?;
        let copy = CopyFrom { rev, from, to };
        Ok(Next::Command(Command::Edit(Edit::Copy(copy))))
    }

    fn put<S: Source>(
        &mut self,
        alloc: Global,
        source: &mut S,
        count: u64,
        path: FsPath,
    ) -> Result<Next, Stop>
        ensures given { Reads (λ n. n) (put_at count path) (place_of (S.remaining source.old) self.old) (place_of (S.remaining source.new) self.new) result }
        ensures cause { HasCause IfRead (S.faults source.old) (S.faults source.new) result }
    {
        let text = self.take_text(alloc, source, count)?;
        let put = PutText { path, text };
        Ok(Next::Command(Command::Edit(Edit::Put(put))))
    }

    fn set_prop<S: Source>(
        &mut self,
        alloc: Global,
        source: &mut S,
        count: u64,
        name: PropName,
        path: FsPath,
    ) -> Result<Next, Stop>
        ensures given { Reads (λ n. n) (set_at count name path) (place_of (S.remaining source.old) self.old) (place_of (S.remaining source.new) self.new) result }
        ensures cause { HasCause IfRead (S.faults source.old) (S.faults source.new) result }
    {
        let value = self.take_text(alloc, source, count)?;
        let set = SetProp {
            path,
            name,
            value: Some(value),
        };
        Ok(Next::Command(Command::Edit(Edit::Prop(set))))
    }

    // What belongs to the first line of a command, and the command.
    fn rest<S: Source>(
        &mut self,
        alloc: Global,
        source: &mut S,
        line: CommandLine,
    ) -> Result<Next, Stop>
        ensures given { Reads (λ n. n) (rest_at line) (place_of (S.remaining source.old) self.old) (place_of (S.remaining source.new) self.new) result }
        ensures cause { HasCause IfRead (S.faults source.old) (S.faults source.new) result }
    {
        match line {
            CommandLine::Author(author) => Ok(Next::Command(Command::Author(author))),
            CommandLine::Log(count) => self.log(alloc, source, count),
            CommandLine::Whole(edit) => Ok(Next::Command(Command::Edit(edit))),
            CommandLine::Copy(rev, from) => self.copy(alloc, source, rev, from),
            CommandLine::Put(count, path) => self.put(alloc, source, count, path),
            CommandLine::SetProp(count, name, path) => {
                self.set_prop(alloc, source, count, name, path)
            }
            CommandLine::Commit => Ok(Next::Commit),
        }
    }

    /// The next command of a job that has come so far.
    pub(crate) fn next<S: Source>(
        &mut self,
        alloc: Global,
        source: &mut S,
        stage: Stage,
    ) -> Result<Next, Stop>
        ensures given { Reads (λ n. n) (next_at stage) (place_of (S.remaining source.old) self.old) (place_of (S.remaining source.new) self.new) result }
        ensures cause { HasCause IfRead (S.faults source.old) (S.faults source.new) result }
    {
        let line = self.take_line(alloc, source)?;
        let said = command_line(alloc, stage, &line)?;
        self.rest(alloc, source, said)
    }
}
