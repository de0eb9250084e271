// A whole text about the formats.
use crate::formats::{Texts, put_reading};
use crate::line::Line;
use anyhow::{Result, bail};
use fsfs_memory::{Transcript, bytes_of};
use std::alloc::{AllocError, Global};
use std::collections::BTreeMap;

// The texts, the name of the one that is begun, what is read, and what has been printed.
#[derive(Drop)]
struct Player {
    alloc: Global,
    texts: Texts,
    open: String,
    taken: Vec<u8>,
    out: Transcript,
}

// The text of a name.
fn text_of<'a>(texts: &'a Texts, name: &str) -> Result<&'a [u8]> {
    match texts.get(name) {
        Some(bytes) => Ok(bytes.as_slice()),
        None => bail!("no text of this name"),
    }
}

// The same bytes with another at an offset.
fn changed(alloc: Global, bytes: &[u8], at: usize, byte: &[u8]) -> Result<Vec<u8>> {
    let mut changed = Vec::from_slice(alloc, bytes)?;
    match (changed.get_mut(at), byte) {
        (Some(place), [byte]) => *place = *byte,
        _ => bail!("no byte, or none at this offset"),
    }
    Ok(changed)
}

impl Player {
    fn add(&mut self, bytes: &[u8]) -> Result<()> {
        match self.texts.get_mut(self.open.as_str()) {
            Some(text) => Ok(text.extend_from_slice(bytes)?),
            None => bail!("no text is begun"),
        }
    }

    // Adds the bytes of a line, and this behind them.
    fn add_line(&mut self, text: &str, end: &[u8]) -> Result<()> {
        let mut bytes = bytes_of(self.alloc, text)?;
        bytes.extend_from_slice(end)?;
        self.add(&bytes)
    }

    fn begin(&mut self, name: &str) -> Result<()> {
        self.open = String::from_str(self.alloc, name)?;
        let key = String::from_str(self.alloc, name)?;
        self.texts.insert(key, Vec::new(self.alloc))?;
        Ok(())
    }

    fn add_all(&mut self, name: &str) -> Result<()> {
        let bytes = Vec::from_slice(self.alloc, text_of(&self.texts, name)?)?;
        self.add(&bytes)
    }

    fn take(&mut self, name: &str, range: Option<(usize, usize)>) -> Result<()> {
        let text = text_of(&self.texts, name)?;
        let bytes = match range {
            None => text,
            Some((from, to)) if from <= to && to <= text.len() => &text[from..to],
            Some(_) => bail!("past the end of the text"),
        };
        self.taken = Vec::from_slice(self.alloc, bytes)?;
        Ok(())
    }

    // Prints what these bytes are.
    fn put(&mut self, format: &str, bytes: &[u8]) {
        self.out.say(": ");
        put_reading(&mut self.out, self.alloc, &self.texts, format, bytes);
        self.out.say("\n");
    }

    fn read(&mut self, format: &str) -> Result<()> {
        let bytes = Vec::from_slice(self.alloc, &self.taken)?;
        self.out.say(format);
        self.put(format, &bytes);
        Ok(())
    }

    fn read_given(&mut self, format: &str, text: &str) -> Result<()> {
        let bytes = bytes_of(self.alloc, text)?;
        self.out.say(format);
        self.out.say(" of ");
        self.out.say(text);
        self.put(format, &bytes);
        Ok(())
    }

    fn read_changed(&mut self, at: usize, byte: &str, format: &str) -> Result<()> {
        let bytes = changed(self.alloc, &self.taken, at, &bytes_of(self.alloc, byte)?)?;
        self.out.say(format);
        self.out.say(" with ");
        self.out.say(byte);
        self.out.tell(" at ", &at);
        self.put(format, &bytes);
        Ok(())
    }

    // What is printed of a format that is read cut at this length.
    fn told(&self, format: &str, length: usize) -> Transcript {
        let bytes = self.taken.get(..length).unwrap_or(&[]);
        let mut told = Transcript::new(self.alloc);
        put_reading(&mut told, self.alloc, &self.texts, format, bytes);
        told
    }

    // What is printed of lengths beside one another that give the same is printed once.
    fn read_lengths(&mut self, first: usize, format: &str) {
        let mut last = Transcript::new(self.alloc);
        for length in first..self.taken.len() {
            let told = self.told(format, length);
            if told.as_str() != last.as_str() {
                self.out.say(format);
                self.out.tell(" from length ", &length);
                self.out.say(": ");
                self.out.say(told.as_str());
                self.out.say("\n");
                last = told;
            }
        }
    }

    fn act(&mut self, line: Line<'_>) -> Result<()> {
        match line {
            Line::Nothing => {}
            Line::Headline(text) => self.out.headline(text),
            Line::Lengths(first, format) => self.read_lengths(first, format),
            Line::Text(name) => return self.begin(name),
            Line::Whole(text) => return self.add_line(text, b"\n"),
            Line::Cut(text) => return self.add_line(text, b""),
            Line::Add(name) => return self.add_all(name),
            Line::Take(name, range) => return self.take(name, range),
            Line::Read(format) => return self.read(format),
            Line::Of(format, text) => return self.read_given(format, text),
            Line::Byte(at, byte, format) => return self.read_changed(at, byte, format),
        }
        Ok(())
    }

    // Does what a line says. Where that can't be done, its number is printed, and why.
    fn play(&mut self, number: usize, line: &str) {
        let done = match Line::read(line) {
            Ok(line) => self.act(line),
            Err(error) => Err(error),
        };
        if let Err(error) = done {
            self.out.refuse(number, &error);
        }
    }
}

/// What is printed of a text about the formats.
pub fn transcript_of(alloc: Global, text: &str) -> Result<String, AllocError> {
    let mut player = Player {
        alloc,
        texts: BTreeMap::new(alloc),
        open: String::new(alloc),
        taken: Vec::new(alloc),
        out: Transcript::new(alloc),
    };
    for (at, line) in text.lines().enumerate() {
        player.play(at.saturating_add(1), line);
    }
    player.out.finish()
}
