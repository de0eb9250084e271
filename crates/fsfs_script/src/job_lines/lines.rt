//! What the first line of a command says.
ghost use Rattle.std.specs.Prelude.{option_map};
ghost use Rattle.fsfs_script.specs.JobLines.Judging.{GivesOrMemory};
ghost use Rattle.fsfs_script.specs.JobLines.Lines.{path_line_at, copy_line_at, put_line_at, set_line_at, remove_line_at, log_line_at, read_line_at, job_line_at, opening_rest_at, command_rest_at, opening_line_at, command_line_at, to_line_at};

use crate::job_lines::edit::{Edit, SetProp};
use crate::job_lines::job::Base;
use crate::job_lines::parts::{author, base, length, name, number, path};
use crate::job_lines::refusal::{LineError, Refusal, Why};
use crate::job_lines::texts::Author;
use crate::job_lines::verbs::{OpeningVerb, Stage, Verb, command_named, opening_named};
use crate::job_lines::words::{as_text, end, split_word, text_behind};
use fsfs_base::{FsPath, PropName};
use std::alloc::Global;

/// The most bytes that the text of a file may have.
pub const MAX_TEXT: u64 = 1_073_741_824;

/// The most bytes that the value of a property or a log may have.
pub const MAX_PROP: u64 = 1_048_576;

/// What the first line of a job says.
#[derive(Drop)]
pub enum OpeningLine {
    Job(Base),
    /// All of a job.
    Read(Base, FsPath),
}

/// What the first line of a command inside a job says. Where a number stands, so many bytes and a newline follow.
#[derive(Drop)]
pub enum CommandLine {
    Author(Author),
    Log(u64),
    /// All of an edit.
    Whole(Edit),
    /// A line `to` follows.
    Copy(u64, FsPath),
    Put(u64, FsPath),
    SetProp(u64, PropName, FsPath),
    Commit,
}

#[tactic(auto, unfolding(crate::specs::JobLines::Lines::job_line_at))]
fn job_line(text: &[u8]) -> Result<OpeningLine, LineError>
    ensures { GivesOrMemory (λ l. l) result (job_line_at text.now) }
{
    let (word, rest) = split_word(text);
    let base = base(word)?;
    end(rest)?;
    Ok(OpeningLine::Job(base))
}

#[tactic(auto, unfolding(crate::specs::JobLines::Lines::read_line_at))]
fn read_line(alloc: Global, text: &[u8]) -> Result<OpeningLine, LineError>
    ensures { GivesOrMemory (λ l. l) result (read_line_at text.now) }
{
    let (word, rest) = split_word(text);
    let base = base(word)?;
    let path = path(alloc, text_behind(rest))?;
    Ok(OpeningLine::Read(base, path))
}

#[tactic(auto, unfolding(crate::specs::JobLines::Lines::opening_rest_at))]
fn opening_rest(alloc: Global, verb: OpeningVerb, text: &[u8]) -> Result<OpeningLine, LineError>
    ensures { GivesOrMemory (λ l. l) result (opening_rest_at verb text.now) }
{
    match verb {
        OpeningVerb::Job => job_line(text),
        OpeningVerb::Read => read_line(alloc, text),
    }
}

/// What the first line of a job says. Where all jobs that a script may have were there before, none may begin.
#[tactic(auto, unfolding(crate::specs::JobLines::Lines::opening_line_at))]
pub fn opening_line(alloc: Global, is_full: bool, line: &[u8]) -> Result<OpeningLine, LineError>
    ensures { GivesOrMemory (λ l. l) result (opening_line_at is_full line.now) }
{
    let (word, rest) = split_word(line);
    as_text(word)?;
    match opening_named(word) {
        None => Err(LineError::Refused(Refusal::Bad(Why::Word))),
        Some(_) if is_full => Err(LineError::Refused(Refusal::TooManyJobs)),
        Some(verb) => opening_rest(alloc, verb, text_behind(rest)),
    }
}

#[tactic(auto, unfolding(crate::specs::JobLines::Lines::log_line_at))]
fn log_line(text: &[u8]) -> Result<CommandLine, LineError>
    ensures { GivesOrMemory (λ l. l) result (log_line_at text.now) }
{
    let (word, rest) = split_word(text);
    let count = length(MAX_PROP, Refusal::PropTooLong, word)?;
    end(rest)?;
    Ok(CommandLine::Log(count))
}

#[tactic(auto, unfolding(crate::specs::JobLines::Lines::copy_line_at))]
fn copy_line(alloc: Global, text: &[u8]) -> Result<CommandLine, LineError>
    ensures { GivesOrMemory (λ l. l) result (copy_line_at text.now) }
{
    let (word, rest) = split_word(text);
    let rev = number(word)?;
    let from = path(alloc, text_behind(rest))?;
    Ok(CommandLine::Copy(rev, from))
}

#[tactic(auto, unfolding(crate::specs::JobLines::Lines::put_line_at))]
fn put_line(alloc: Global, text: &[u8]) -> Result<CommandLine, LineError>
    ensures { GivesOrMemory (λ l. l) result (put_line_at text.now) }
{
    let (word, rest) = split_word(text);
    let count = length(MAX_TEXT, Refusal::TextTooLong, word)?;
    let path = path(alloc, text_behind(rest))?;
    Ok(CommandLine::Put(count, path))
}

#[tactic(auto, unfolding(crate::specs::JobLines::Lines::set_line_at))]
fn set_line(alloc: Global, text: &[u8]) -> Result<CommandLine, LineError>
    ensures { GivesOrMemory (λ l. l) result (set_line_at text.now) }
{
    let (word, rest) = split_word(text);
    let count = length(MAX_PROP, Refusal::PropTooLong, word)?;
    let (word, rest) = split_word(text_behind(rest));
    let name = name(alloc, word)?;
    let path = path(alloc, text_behind(rest))?;
    Ok(CommandLine::SetProp(count, name, path))
}

#[tactic(auto, unfolding(crate::specs::JobLines::Lines::remove_line_at))]
fn remove_line(alloc: Global, text: &[u8]) -> Result<CommandLine, LineError>
    ensures { GivesOrMemory (λ l. l) result (remove_line_at text.now) }
{
    let (word, rest) = split_word(text);
    let name = name(alloc, word)?;
    let path = path(alloc, text_behind(rest))?;
    let edit = SetProp {
        path,
        name,
        value: None,
    };
    Ok(CommandLine::Whole(Edit::Prop(edit)))
}

#[tactic(auto, unfolding(crate::specs::JobLines::Lines::command_rest_at))]
fn command_rest(alloc: Global, verb: Verb, rest: Option<&[u8]>) -> Result<CommandLine, LineError>
    ensures { GivesOrMemory (λ l. l) result (command_rest_at verb (option_map (λ t. t.now) rest.entry)) }
{
    let text = text_behind(rest);
    match verb {
        Verb::Author => Ok(CommandLine::Author(author(alloc, text)?)),
        Verb::Log => log_line(text),
        Verb::MakeDir => Ok(CommandLine::Whole(Edit::MakeDir(path(alloc, text)?))),
        Verb::MakeFile => Ok(CommandLine::Whole(Edit::MakeFile(path(alloc, text)?))),
        Verb::Delete => Ok(CommandLine::Whole(Edit::Delete(path(alloc, text)?))),
        Verb::Copy => copy_line(alloc, text),
        Verb::Put => put_line(alloc, text),
        Verb::SetProp => set_line(alloc, text),
        Verb::RemoveProp => remove_line(alloc, text),
        Verb::Commit => {
            end(rest)?;
            Ok(CommandLine::Commit)
        }
    }
}

/// What the first line of a command says, at this point of a job.
#[tactic(auto, unfolding(crate::specs::JobLines::Lines::command_line_at))]
pub fn command_line(alloc: Global, stage: Stage, line: &[u8]) -> Result<CommandLine, LineError>
    ensures { GivesOrMemory (λ l. l) result (command_line_at stage line.now) }
{
    let (word, rest) = split_word(line);
    as_text(word)?;
    match command_named(stage, word) {
        None => Err(LineError::Refused(Refusal::Bad(Why::Word))),
        Some(verb) => command_rest(alloc, verb, rest),
    }
}

/// The path that a line `to` names.
#[tactic(auto, unfolding(crate::specs::JobLines::Lines::to_line_at))]
pub fn to_line(alloc: Global, line: &[u8]) -> Result<FsPath, LineError>
    ensures { GivesOrMemory (λ p. p) result (to_line_at line.now) }
{
    let (word, rest) = split_word(line);
    as_text(word)?;
    if word != b"to".as_slice() {
        return Err(LineError::Refused(Refusal::Bad(Why::Word)));
    }
    path(alloc, text_behind(rest))
}
