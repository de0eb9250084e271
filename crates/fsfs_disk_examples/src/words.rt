// The words of a line.
use anyhow::{Result, bail};
use fsfs_base::{Name, read_txn_name};
use fsfs_disk::Label;
use fsfs_memory::cut;

/// What is left of a line, a word after another.
#[derive(Clone, Copy)]
pub struct Words<'a> {
    rest: &'a str,
}

impl<'a> Words<'a> {
    pub fn of(line: &'a str) -> Words<'a> {
        Words { rest: line }
    }

    /// What no word was taken of.
    pub fn rest(self) -> &'a str {
        self.rest
    }

    pub fn word(&mut self) -> &'a str {
        let (word, rest) = cut(self.rest);
        self.rest = rest;
        word
    }

    pub fn name(&mut self) -> Result<Name> {
        let word = self.word();
        if word.len() > 128 {
            bail!("too long a name");
        }
        Ok(Name::new(word))
    }

    pub fn number(&mut self) -> Result<u64> {
        Ok(self.word().parse::<u64>()?)
    }

    /// The label of a bench: `pack-7`, or the name of a transaction.
    pub fn label(&mut self) -> Result<Label> {
        let word = self.word();
        if let Some(shard) = word.strip_prefix("pack-") {
            return Ok(Label::Pack(shard.parse::<u32>()?));
        }
        match read_txn_name(word.as_bytes()) {
            Some(txn) => Ok(Label::Txn(txn)),
            None => bail!("no label"),
        }
    }
}
