// The lines of a text about the formats.
use anyhow::{Result, bail};
use fsfs_memory::cut;

/// A line. The bytes in it are as they are written, with their escapes.
#[derive(Clone, Copy)]
pub enum Line<'a> {
    Nothing,
    /// A headline, which is printed.
    Headline(&'a str),
    /// Begins a text of this name.
    Text(&'a str),
    /// Bytes of the text, and a newline.
    Whole(&'a str),
    /// Bytes of the text.
    Cut(&'a str),
    /// Adds all bytes of the text of this name to the one that was begun.
    Add(&'a str),
    /// What is read from here on: these bytes of the text of this name; all where none are named.
    Take(&'a str, Option<(usize, usize)>),
    /// Reads it.
    Read(&'a str),
    /// Reads these bytes.
    Of(&'a str, &'a str),
    /// Reads it cut at each length, from this one on.
    Lengths(usize, &'a str),
    /// Reads it with another byte at an offset.
    Byte(usize, &'a str, &'a str),
}

// Two offsets, or none.
fn range(text: &str) -> Result<Option<(usize, usize)>> {
    if text.is_empty() {
        return Ok(None);
    }
    let (from, to) = cut(text);
    Ok(Some((from.parse::<usize>()?, to.parse::<usize>()?)))
}

impl<'a> Line<'a> {
    pub fn read(line: &'a str) -> Result<Line<'a>> {
        if line.is_empty() || line.starts_with('#') {
            return Ok(Line::Nothing);
        }
        if let Some(text) = line.strip_prefix('|') {
            return Ok(Line::Whole(text));
        }
        if let Some(text) = line.strip_prefix(':') {
            return Ok(Line::Cut(text));
        }
        let (word, rest) = cut(line);
        match word {
            "==" => Ok(Line::Headline(rest)),
            "@" => Ok(Line::Text(rest)),
            "+" => Ok(Line::Add(rest)),
            "take" => {
                let (name, offsets) = cut(rest);
                Ok(Line::Take(name, range(offsets)?))
            }
            "read" => Ok(Line::Read(rest)),
            "of" => {
                let (format, text) = rest.split_once(':').unwrap_or((rest, ""));
                Ok(Line::Of(format, text))
            }
            "lengths" => {
                let (from, format) = cut(rest);
                Ok(Line::Lengths(from.parse::<usize>()?, format))
            }
            "byte" => {
                let (at, rest) = cut(rest);
                let (byte, format) = cut(rest);
                Ok(Line::Byte(at.parse::<usize>()?, byte, format))
            }
            _ => bail!("no such line"),
        }
    }
}
