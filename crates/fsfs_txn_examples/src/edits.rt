// Edits that read a book.
use crate::answers::{say_copied, say_deleted, say_depth, say_made};
use crate::faults::say_txn_error;
use crate::words::{path_of, rev_of};
use fsfs_base::FsPath;
use fsfs_disk::Bench;
use fsfs_example_calls::HeldTxn;
use fsfs_memory::{Transcript, cut};
use fsfs_noderev::CopySource;
use fsfs_revision::Book;
use fsfs_txn::{Made, Opened, Outcome, PathOpened, TxnError};
use std::alloc::Global;

fn say_making(alloc: Global, path: &FsPath, made: &Result<Made, TxnError>, out: &mut Transcript) {
    match made {
        Ok(made) => say_made(alloc, path, made, out),
        Err(error) => say_txn_error(error, out),
    }
}

/// `mkdir PATH`
pub fn mkdir<B: Book, W: Bench + Drop>(
    alloc: Global,
    book: &mut B,
    txn: &mut HeldTxn<W>,
    rest: &str,
    out: &mut Transcript,
) {
    let Some(path) = path_of(alloc, rest) else {
        return out.say("? no path");
    };
    let made = txn.mkdir(alloc, book, &path);
    say_making(alloc, &path, &made, out);
}

/// `mkfile PATH`
pub fn mkfile<B: Book, W: Bench + Drop>(
    alloc: Global,
    book: &mut B,
    txn: &mut HeldTxn<W>,
    rest: &str,
    out: &mut Transcript,
) {
    let Some(path) = path_of(alloc, rest) else {
        return out.say("? no path");
    };
    let made = txn.mkfile(alloc, book, &path);
    say_making(alloc, &path, &made, out);
}

/// `del PATH`
pub fn del<B: Book, W: Bench + Drop>(
    alloc: Global,
    book: &mut B,
    txn: &mut HeldTxn<W>,
    rest: &str,
    out: &mut Transcript,
) {
    let Some(path) = path_of(alloc, rest) else {
        return out.say("? no path");
    };
    match txn.delete(alloc, book, &path) {
        Ok(deleted) => say_deleted(alloc, &path, &deleted, out),
        Err(error) => say_txn_error(&error, out),
    }
}

// `REV FROM TO`
fn copy_words(alloc: Global, rest: &str) -> Option<(CopySource, FsPath)> {
    let (rev, rest) = cut(rest);
    let (from, to) = cut(rest);
    let from = CopySource {
        rev: rev_of(rev)?,
        path: path_of(alloc, from)?,
    };
    Some((from, path_of(alloc, to)?))
}

/// `copy REV FROM TO`
pub fn copy<B: Book, W: Bench + Drop>(
    alloc: Global,
    book: &mut B,
    txn: &mut HeldTxn<W>,
    rest: &str,
    out: &mut Transcript,
) {
    let Some((from, to)) = copy_words(alloc, rest) else {
        return out.say("? no copy");
    };
    match txn.copy(alloc, book, &from, &to) {
        Ok(copied) => say_copied(alloc, &from, &to, &copied, out),
        Err(error) => say_txn_error(&error, out),
    }
}

/// `merge`: with the youngest revision. Whether the transaction stands on it then.
pub fn merge<B: Book, W: Bench + Drop>(
    alloc: Global,
    book: &mut B,
    txn: &mut HeldTxn<W>,
    out: &mut Transcript,
) -> bool {
    let Ok(head) = book.youngest() else {
        out.say("DiskFault");
        return false;
    };
    match txn.merge(alloc, book, head) {
        Ok(Outcome::Landed) => {
            out.tell("landed on ", &head);
            true
        }
        Ok(Outcome::Clash(path)) => {
            out.tell("conflict ", &head);
            out.tell(" ", &path);
            false
        }
        Err(error) => {
            say_txn_error(&error, out);
            false
        }
    }
}

/// What stands at a path, opened; else why nothing does is told.
pub fn open<B: Book, W: Bench + Drop>(
    alloc: Global,
    book: &mut B,
    txn: &mut HeldTxn<W>,
    word: &str,
    out: &mut Transcript,
) -> Option<Opened> {
    let Some(path) = path_of(alloc, word) else {
        out.say("? no path");
        return None;
    };
    match txn.open_path(alloc, book, &path) {
        Ok(PathOpened::Node(opened)) => return Some(opened),
        Ok(PathOpened::NotFound(depth)) => say_depth(alloc, "NotFound ", &path, depth, out),
        Ok(PathOpened::NotDir(depth)) => say_depth(alloc, "NotDir ", &path, depth, out),
        Err(error) => say_txn_error(&error, out),
    }
    None
}
