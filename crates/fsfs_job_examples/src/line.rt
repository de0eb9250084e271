// The lines of a text about scripts.
use anyhow::{Result, bail};
use fsfs_memory::cut;

/// A line. The bytes in it are as they are written, with their escapes.
#[derive(Clone, Copy)]
pub enum Line<'a> {
    Nothing,
    /// A headline, which is printed.
    Headline(&'a str),
    /// Puts a file on the disk.
    File(&'a str),
    /// Bytes of the script, and a newline.
    Whole(&'a str),
    /// Bytes of the script.
    Cut(&'a str),
    /// The same bytes so many times over.
    Many(usize, &'a str),
    /// Reads the script.
    Read,
    /// Reads it from a source of which this read fails.
    Fails(u64),
    /// Runs it over the repository on the disk.
    Run,
}

impl<'a> Line<'a> {
    pub fn read(line: &'a str) -> Result<Line<'a>> {
        if line.is_empty() || line.starts_with('#') {
            return Ok(Line::Nothing);
        }
        if let Some(text) = line.strip_prefix('|') {
            return Ok(Line::Whole(text));
        }
        if let Some(text) = line.strip_prefix(':') {
            return Ok(Line::Cut(text));
        }
        let (word, rest) = cut(line);
        match word {
            "==" => Ok(Line::Headline(rest)),
            "file" => Ok(Line::File(rest)),
            "many" => {
                let (count, text) = cut(rest);
                Ok(Line::Many(count.parse::<usize>()?, text))
            }
            "read" => Ok(Line::Read),
            "fails" => Ok(Line::Fails(rest.parse::<u64>()?)),
            "run" => Ok(Line::Run),
            _ => bail!("no such line"),
        }
    }
}
