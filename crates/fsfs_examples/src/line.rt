// The lines of a text of examples.
use anyhow::{Result, bail};
use fsfs_memory::cut;

/// Where a call fails.
#[derive(Clone, Copy, Debug, PartialEq, Eq)]
pub enum Place {
    /// A call of the disk.
    Disk,
    /// A call of the disk, and each behind it.
    Stop,
    /// A call of each bench.
    Bench,
    /// A read of the input.
    Input,
    /// A write of the output.
    Output,
    /// A write of the error output.
    Errors,
}

impl Place {
    fn read(word: &str) -> Result<Place> {
        match word {
            "disk" => Ok(Place::Disk),
            "stop" => Ok(Place::Stop),
            "bench" => Ok(Place::Bench),
            "input" => Ok(Place::Input),
            "output" => Ok(Place::Output),
            "errors" => Ok(Place::Errors),
            _ => bail!("no place of a failing call"),
        }
    }

    pub fn word(self) -> &'static str {
        match self {
            Place::Disk => "disk",
            Place::Stop => "stop",
            Place::Bench => "bench",
            Place::Input => "input",
            Place::Output => "output",
            Place::Errors => "errors",
        }
    }
}

/// What a block is run for, again and again.
#[derive(Clone, Copy)]
pub enum Each {
    /// A call at this place fails: the first, then the second, and so on.
    Call(Place),
    /// The file that bytes go to is cut at this length, then at one more, and so on.
    Length(usize),
}

impl Each {
    fn read(text: &str) -> Result<Each> {
        let (word, rest) = cut(text);
        if word == "length" {
            Ok(Each::Length(rest.parse::<usize>()?))
        } else {
            Ok(Each::Call(Place::read(text)?))
        }
    }
}

/// What a line does to the files. The texts in it are as they are written, with their escapes.
#[derive(Drop)]
pub enum FileLine<'a> {
    /// Begins a file anew; the bytes that follow are its.
    New(&'a str),
    /// Goes on with a file that is there.
    More(&'a str),
    /// Bytes, and a newline.
    Whole(&'a str),
    /// Bytes.
    Cut(&'a str),
    /// Bytes, so many times.
    Times(u32, &'a str),
    /// Takes a file away.
    Absent(&'a str),
    /// Puts bytes in the place of those at this offset.
    At(usize, &'a str),
    /// Leaves so many bytes.
    First(usize),
}

/// A line.
#[derive(Drop)]
pub enum Line<'a> {
    Nothing,
    /// Begins an example, with no files.
    Example(&'a str),
    /// Takes the files that were kept under a name.
    Like(&'a str),
    /// Keeps the files under a name.
    Keep(&'a str),
    OfFile(FileLine<'a>),
    /// The moment at which commands run.
    Moment(u64),
    /// What the dice show.
    Dice(&'a str),
    /// These calls of the next command fail.
    Failing(Place, &'a str),
    /// Goes on with the input of the next command: bytes and a newline.
    Input(&'a str),
    /// The same with bytes alone.
    InputCut(&'a str),
    /// The same with bytes so many times.
    InputTimes(u32, &'a str),
    /// Runs a command.
    Run(&'a str),
    /// Stops the machine: of the changes of the last command that are not firm, these are left.
    Crash(&'a str),
    /// Prints all files.
    Files,
    /// Prints one file.
    Show(&'a str),
    /// Prints the files that the last command changed.
    Changes,
    /// Prints how many files there are.
    Count,
    /// The same, in a block, for each image that may be left.
    CrashEach,
    /// Begins a block.
    Each(Each),
    /// Ends it.
    End,
}

impl<'a> FileLine<'a> {
    fn read(line: &'a str) -> Result<FileLine<'a>> {
        if let Some(text) = line.strip_prefix('|') {
            return Ok(FileLine::Whole(text));
        }
        if let Some(text) = line.strip_prefix(':') {
            return Ok(FileLine::Cut(text));
        }
        let (word, rest) = cut(line);
        match word {
            "@" => Ok(FileLine::New(rest)),
            "+" => Ok(FileLine::More(rest)),
            "-" => Ok(FileLine::Absent(rest)),
            "times" => {
                let (count, text) = cut(rest);
                Ok(FileLine::Times(count.parse::<u32>()?, text))
            }
            "at" => {
                let (at, text) = cut(rest);
                Ok(FileLine::At(at.parse::<usize>()?, text))
            }
            "first" => Ok(FileLine::First(rest.parse::<usize>()?)),
            _ => bail!("no such line"),
        }
    }
}

impl<'a> Line<'a> {
    pub fn read(line: &'a str) -> Result<Line<'a>> {
        if line.is_empty() || line.starts_with('#') {
            return Ok(Line::Nothing);
        }
        let (word, rest) = cut(line);
        match word {
            "==" => Ok(Line::Example(rest)),
            "like" => Ok(Line::Like(rest)),
            "keep" => Ok(Line::Keep(rest)),
            "<" => Ok(Line::Input(rest)),
            "<:" => Ok(Line::InputCut(rest)),
            "<times" => {
                let (count, text) = cut(rest);
                Ok(Line::InputTimes(count.parse::<u32>()?, text))
            }
            "$" => Ok(Line::Run(rest)),
            "failing" => {
                let (place, calls) = cut(rest);
                Ok(Line::Failing(Place::read(place)?, calls))
            }
            "crash" if rest == "each" => Ok(Line::CrashEach),
            "crash" => Ok(Line::Crash(rest)),
            "files" => Ok(Line::Files),
            "show" => Ok(Line::Show(rest)),
            "changes" => Ok(Line::Changes),
            "count" => Ok(Line::Count),
            "each" => Ok(Line::Each(Each::read(rest)?)),
            "end" => Ok(Line::End),
            "moment" => Ok(Line::Moment(rest.parse::<u64>()?)),
            "dice" => Ok(Line::Dice(rest)),
            _ => Ok(Line::OfFile(FileLine::read(line)?)),
        }
    }
}
