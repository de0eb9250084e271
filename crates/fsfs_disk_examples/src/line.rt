// The lines of an example.
use crate::words::Words;
use anyhow::{Result, bail};
use fsfs_base::Name;
use fsfs_disk::Label;

/// A part of a file.
#[derive(Drop)]
pub struct Part {
    pub name: Name,
    pub offset: u64,
    pub length: u64,
}

/// A call of a disk that needs no right to write.
#[derive(Drop)]
pub enum Look {
    Read(Part),
    Size(Name),
    List,
    Firm,
}

/// A file that is written in a bench and gets a name on the disk.
#[derive(Drop)]
pub struct Published<'a> {
    pub label: Label,
    pub to: Name,
    pub first: &'a str,
    pub second: &'a str,
}

/// A call of a disk that changes what stands there. Bytes are as they are written, with their escapes.
#[derive(Drop)]
pub enum Change<'a> {
    Put(Name, &'a str),
    /// Puts a file and then gives it another name.
    Move(Name, Name, &'a str),
    Remove(Name),
    MakeFolder(Name),
    DropFolder(Name),
    MakeBench(Label),
    /// Drops a label, and hands in the bench that was made last.
    DropBench(Label),
    /// Drops a label alone.
    DropLabel(Label),
    Publish(Published<'a>),
}

/// A call of the bench that was made last.
#[derive(Drop)]
pub enum BenchCall<'a> {
    Append(Name, &'a str),
    Write(Name, &'a str),
    Read(Part),
    Length(Name),
    Firm(Name),
    Remove(Name),
}

/// A call.
#[derive(Drop)]
pub enum Call<'a> {
    Look(Look),
    Change(Change<'a>),
    OfBench(BenchCall<'a>),
}

impl Part {
    fn read(words: &mut Words<'_>) -> Result<Part> {
        Ok(Part {
            name: words.name()?,
            offset: words.number()?,
            length: words.number()?,
        })
    }
}

impl Look {
    fn read(word: &str, words: &mut Words<'_>) -> Result<Option<Look>> {
        match word {
            "read" => Ok(Some(Look::Read(Part::read(words)?))),
            "size" => Ok(Some(Look::Size(words.name()?))),
            "list" => Ok(Some(Look::List)),
            "firm" => Ok(Some(Look::Firm)),
            _ => Ok(None),
        }
    }
}

impl<'a> Change<'a> {
    fn of_files(word: &str, words: &mut Words<'a>) -> Result<Option<Change<'a>>> {
        match word {
            "put" => {
                let name = words.name()?;
                Ok(Some(Change::Put(name, words.rest())))
            }
            "move" => {
                let (from, to) = (words.name()?, words.name()?);
                Ok(Some(Change::Move(from, to, words.rest())))
            }
            "remove" => Ok(Some(Change::Remove(words.name()?))),
            "make" => Ok(Some(Change::MakeFolder(words.name()?))),
            "drop" => Ok(Some(Change::DropFolder(words.name()?))),
            _ => Ok(None),
        }
    }

    fn of_labels(word: &str, words: &mut Words<'a>) -> Result<Option<Change<'a>>> {
        match word {
            "bench" => Ok(Some(Change::MakeBench(words.label()?))),
            "drop-bench" => Ok(Some(Change::DropBench(words.label()?))),
            "drop-label" => Ok(Some(Change::DropLabel(words.label()?))),
            "publish" => Ok(Some(Change::Publish(Published {
                label: words.label()?,
                to: words.name()?,
                first: words.word(),
                second: words.word(),
            }))),
            _ => Ok(None),
        }
    }
}

impl<'a> BenchCall<'a> {
    fn read(word: &str, words: &mut Words<'a>) -> Result<BenchCall<'a>> {
        match word {
            ".append" => {
                let file = words.name()?;
                Ok(BenchCall::Append(file, words.rest()))
            }
            ".write" => {
                let file = words.name()?;
                Ok(BenchCall::Write(file, words.rest()))
            }
            ".read" => Ok(BenchCall::Read(Part::read(words)?)),
            ".length" => Ok(BenchCall::Length(words.name()?)),
            ".firm" => Ok(BenchCall::Firm(words.name()?)),
            ".remove" => Ok(BenchCall::Remove(words.name()?)),
            _ => bail!("no such line"),
        }
    }
}

impl<'a> Call<'a> {
    pub fn read(line: &'a str) -> Result<Call<'a>> {
        let mut words = Words::of(line);
        let word = words.word();
        if let Some(look) = Look::read(word, &mut words)? {
            return Ok(Call::Look(look));
        }
        if let Some(change) = Change::of_files(word, &mut words)? {
            return Ok(Call::Change(change));
        }
        if let Some(change) = Change::of_labels(word, &mut words)? {
            return Ok(Call::Change(change));
        }
        Ok(Call::OfBench(BenchCall::read(word, &mut words)?))
    }
}
