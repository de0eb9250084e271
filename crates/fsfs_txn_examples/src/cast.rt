// The transactions that lines are about.
use crate::calls::{call_on, call_opened};
use fsfs_base::read_txn_name;
use fsfs_disk::Bench;
use fsfs_example_calls::HeldTxn;
use fsfs_memory::{Transcript, cut};
use fsfs_revision::Book;
use fsfs_txn::Opened;
use std::alloc::Global;

/// Transactions under way, and what was opened last.
#[derive(Drop)]
pub struct Cast<W: Bench> {
    txns: Vec<Option<HeldTxn<W>>>,
    /// The one that the lines are about.
    at: usize,
    opened: Option<Opened>,
}

impl<W: Bench + Drop> Cast<W> {
    /// None has begun.
    pub fn new(alloc: Global) -> Cast<W> {
        Cast {
            txns: Vec::new(alloc),
            at: 0,
            opened: None,
        }
    }

    /// One more, where one has begun: the lines are about it.
    pub fn add(&mut self, begun: Option<HeldTxn<W>>, out: &mut Transcript) {
        if begun.is_none() {
            return;
        }
        self.at = self.txns.len();
        self.opened = None;
        if self.txns.push(begun).is_err() {
            out.lose();
        }
    }

    /// The transaction that the lines are about, taken out.
    pub fn take(&mut self) -> Option<HeldTxn<W>> {
        match self.txns.get_mut(self.at) {
            Some(slot) => slot.take(),
            None => None,
        }
    }

    /// Puts it back.
    pub fn put_back(&mut self, txn: Option<HeldTxn<W>>) {
        if let Some(slot) = self.txns.get_mut(self.at) {
            *slot = txn;
        }
    }

    // `on TXN`
    fn turn_to(&mut self, word: &str, out: &mut Transcript) {
        let wanted = read_txn_name(word.as_bytes());
        let found = self.txns.iter().position(|slot| match slot {
            Some(txn) => Some(txn.name()) == wanted,
            None => false,
        });
        match found {
            Some(at) => {
                self.at = at;
                self.say_base(out);
            }
            None => out.say("? no such transaction"),
        }
    }

    fn say_base(&self, out: &mut Transcript) {
        if let Some(Some(txn)) = self.txns.get(self.at) {
            out.tell("based on ", &txn.base());
        }
    }

    // `again LINE`: a text or a property at what was opened before.
    fn again(&mut self, alloc: Global, line: &str, out: &mut Transcript) {
        let (word, rest) = cut(line);
        let Some(mut txn) = self.take() else {
            return out.say("? no transaction");
        };
        match &self.opened {
            Some(opened) => call_opened(alloc, &mut txn, opened, word, rest, out),
            None => out.say("? nothing was opened"),
        }
        self.put_back(Some(txn));
    }

    // A call that reads a book.
    fn call_on<B: Book>(&mut self, alloc: Global, book: &mut B, line: &str, out: &mut Transcript) {
        let Some(mut txn) = self.take() else {
            return out.say("? no transaction");
        };
        let opened = call_on(alloc, book, &mut txn, line, out);
        if opened.is_some() {
            self.opened = opened;
        }
        self.put_back(Some(txn));
    }

    /// Makes the calls of a line, and writes what they answer.
    pub fn call<B: Book>(&mut self, alloc: Global, book: &mut B, line: &str, out: &mut Transcript) {
        let (word, rest) = cut(line);
        match word {
            "on" => self.turn_to(rest, out),
            "again" => self.again(alloc, rest, out),
            _ => self.call_on(alloc, book, line, out),
        }
    }
}
