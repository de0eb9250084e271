// What an example program writes.
use crate::escapes::{put_lines, put_text};
use std::alloc::{AllocError, Global};
use std::fmt::{Debug, Display};

/// A text that is written piece by piece. Where memory is wanting for one, the whole is not had in the end.
#[derive(Drop)]
pub struct Transcript {
    text: String,
    is_whole: bool,
}

fn put_digits(out: &mut String, bytes: &[u8]) -> Result<(), AllocError> {
    for byte in bytes {
        write!(out, "{byte:02x}")?;
    }
    Ok(())
}

impl Transcript {
    pub fn new(alloc: Global) -> Transcript {
        Transcript {
            text: String::new(alloc),
            is_whole: true,
        }
    }

    /// What was written.
    pub fn as_str(&self) -> &str {
        self.text.as_str()
    }

    /// Begins anew.
    pub fn clear(&mut self) {
        self.text.clear();
    }

    /// Memory was wanting for what was to be written.
    pub fn lose(&mut self) {
        self.is_whole = false;
    }

    /// Writes a text.
    pub fn say(&mut self, text: &str) {
        if self.text.push_str(text).is_err() {
            self.is_whole = false;
        }
    }

    /// Writes a value.
    pub fn show<T: Display>(&mut self, value: &T) {
        if write!(self.text, "{value}").is_err() {
            self.is_whole = false;
        }
    }

    /// Writes a value behind a text.
    pub fn tell<T: Display>(&mut self, text: &str, value: &T) {
        self.say(text);
        self.show(value);
    }

    /// Writes the headline of an example.
    pub fn headline(&mut self, name: &str) {
        self.say("== ");
        self.say(name);
        self.say("\n");
    }

    /// Writes why the line of this number can't be done.
    pub fn refuse<E: Display>(&mut self, number: usize, why: &E) {
        self.tell("? ", &number);
        self.tell(": ", why);
        self.say("\n");
    }

    /// Writes the name of a value.
    pub fn name<T: Debug>(&mut self, value: &T) {
        if write!(self.text, "{value:?}").is_err() {
            self.is_whole = false;
        }
    }

    /// Writes bytes, in one line, with escapes.
    pub fn bytes(&mut self, bytes: &[u8]) {
        if put_text(&mut self.text, bytes).is_err() {
            self.is_whole = false;
        }
    }

    /// Writes two hexadecimal digits for each byte.
    pub fn digits(&mut self, bytes: &[u8]) {
        if put_digits(&mut self.text, bytes).is_err() {
            self.is_whole = false;
        }
    }

    /// Writes bytes as lines: behind `whole` each line that a newline ends, and behind `cut` what follows the last of them.
    pub fn lines(&mut self, bytes: &[u8], whole: &str, cut: &str) {
        if put_lines(&mut self.text, bytes, whole, cut).is_err() {
            self.is_whole = false;
        }
    }

    /// All that was written.
    pub fn finish(self) -> Result<String, AllocError> {
        if self.is_whole {
            Ok(self.text)
        } else {
            Err(AllocError)
        }
    }
}
