// The calls of a transaction.
use crate::{edits, reading, texts};
use fsfs_disk::Bench;
use fsfs_example_calls::HeldTxn;
use fsfs_memory::{Transcript, cut};
use fsfs_revision::Book;
use fsfs_txn::Opened;
use std::alloc::Global;

/// A call at what was opened.
pub fn call_opened<W: Bench + Drop>(
    alloc: Global,
    txn: &mut HeldTxn<W>,
    opened: &Opened,
    word: &str,
    rest: &str,
    out: &mut Transcript,
) {
    match word {
        "put" => texts::put(alloc, txn, opened, rest, out),
        "put-md5" => texts::put_checked(alloc, txn, opened, rest, out),
        "put-failing" => texts::put_failing(alloc, txn, opened, rest, out),
        "prop" => texts::set(alloc, txn, opened, rest, out),
        "prop-long" => texts::set_long(alloc, txn, opened, rest, out),
        "unprop" => texts::unset(alloc, txn, opened, rest, out),
        _ => out.say("? no such line"),
    }
}

// A call at what the first word opens.
fn call_opening<B: Book, W: Bench + Drop>(
    alloc: Global,
    book: &mut B,
    txn: &mut HeldTxn<W>,
    word: &str,
    rest: &str,
    out: &mut Transcript,
) {
    let (path, rest) = cut(rest);
    if let Some(opened) = edits::open(alloc, book, txn, path, out) {
        call_opened(alloc, txn, &opened, word, rest, out);
    }
}

/// A call that reads a book. What it opened, where it is `open`.
pub fn call_on<B: Book, W: Bench + Drop>(
    alloc: Global,
    book: &mut B,
    txn: &mut HeldTxn<W>,
    line: &str,
    out: &mut Transcript,
) -> Option<Opened> {
    let (word, rest) = cut(line);
    match word {
        "mkdir" => edits::mkdir(alloc, book, txn, rest, out),
        "mkfile" => edits::mkfile(alloc, book, txn, rest, out),
        "del" => edits::del(alloc, book, txn, rest, out),
        "copy" => edits::copy(alloc, book, txn, rest, out),
        "get" => reading::get(alloc, book, txn, rest, out),
        "open" => {
            let opened = edits::open(alloc, book, txn, rest, out);
            if opened.is_some() {
                out.say("opened");
            }
            return opened;
        }
        "merge" => {
            let _landed = edits::merge(alloc, book, txn, out);
        }
        _ => call_opening(alloc, book, txn, word, rest, out),
    }
    None
}
