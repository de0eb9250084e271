// Transactions that are begun, edited and committed, in a repository that is open.
use crate::answers::{say_bar, say_edit_error};
use crate::calls::MOMENT;
use fsfs_base::{FsPath, Pairs, RevNum};
use fsfs_disk::Bench;
use fsfs_example_calls::{HeldTxn, say_begin_fault, say_disk_fault};
use fsfs_memory::{MemBench, MemDisk, MemSource, NoGate, Transcript, bytes_of, cut};
use fsfs_repo::{CommitAnswer, Deleted, Made, PathOpened, Repo, TextSet, TxnError};
use fsfs_revision::Book;
use std::alloc::Global;

// Whether it was made.
fn is_made(made: Result<Made, TxnError>, out: &mut Transcript) -> bool {
    match made {
        Ok(Made::Done) => return true,
        Ok(_) => out.say("? not made"),
        Err(error) => say_edit_error(&error, out),
    }
    false
}

fn delete<B: Book, W: Bench + Drop>(
    alloc: Global,
    book: &mut B,
    txn: &mut HeldTxn<W>,
    path: &FsPath,
    out: &mut Transcript,
) -> bool {
    match txn.delete(alloc, book, path) {
        Ok(Deleted::Done) => return true,
        Ok(_) => out.say("? not deleted"),
        Err(error) => say_edit_error(&error, out),
    }
    false
}

// A new file with this text.
fn put<B: Book, W: Bench + Drop>(
    alloc: Global,
    book: &mut B,
    txn: &mut HeldTxn<W>,
    path: &FsPath,
    text: &str,
    out: &mut Transcript,
) -> bool {
    let Ok(bytes) = bytes_of(alloc, text) else {
        out.say("? no bytes");
        return false;
    };
    if !is_made(txn.mkfile(alloc, book, path), out) {
        return false;
    }
    let mut source = MemSource::new(alloc, bytes);
    match txn.open_path(alloc, book, path) {
        Ok(PathOpened::Node(opened)) => {
            match txn.put_text(alloc, &opened, &mut source, None) {
                Ok(TextSet::Done) => return true,
                Ok(_) => out.say("? not put"),
                Err(error) => say_edit_error(&error, out),
            }
        }
        Ok(_) => out.say("? not opened"),
        Err(error) => say_edit_error(&error, out),
    }
    false
}

// `mkdir PATH`, `mkfile PATH`, `del PATH`, `put PATH TEXT`. Whether it was made; else why not is told.
fn edit<B: Book, W: Bench + Drop>(
    alloc: Global,
    book: &mut B,
    txn: &mut HeldTxn<W>,
    line: &str,
    out: &mut Transcript,
) -> bool {
    let (word, rest) = cut(line);
    let (path, text) = cut(rest);
    let Ok(path) = FsPath::parse(alloc, path) else {
        out.say("? no path");
        return false;
    };
    match word {
        "mkdir" => is_made(txn.mkdir(alloc, book, &path), out),
        "mkfile" => is_made(txn.mkfile(alloc, book, &path), out),
        "del" => delete(alloc, book, txn, &path, out),
        "put" => put(alloc, book, txn, &path, text, out),
        _ => {
            out.say("? no such edit");
            false
        }
    }
}

/// Makes edits, up to the first that fails. Whether all were made.
pub fn edit_all<B: Book, W: Bench + Drop>(
    alloc: Global,
    book: &mut B,
    txn: &mut HeldTxn<W>,
    edits: &str,
    out: &mut Transcript,
) -> bool {
    for line in edits.split(", ") {
        if !line.is_empty() && !edit(alloc, book, txn, line, out) {
            return false;
        }
    }
    true
}

// Tells the answer of a commit, and purges what it handed back.
fn say_answer(
    repo: &mut Repo<MemDisk>,
    answer: CommitAnswer<HeldTxn<MemBench>>,
    out: &mut Transcript,
) {
    let rt = ();
    match answer {
        CommitAnswer::Committed { rev, purged } => {
            out.tell("r", &rev);
            if !purged {
                out.say(" not purged");
            }
        }
        CommitAnswer::Barred { bar, txn } => {
            say_bar(&bar, out);
            let _ = repo.purge(&rt, txn);
        }
        CommitAnswer::DiskFault { place } => say_disk_fault(place, out),
        CommitAnswer::BenchFault => out.say("BenchFault"),
    }
}

// Edits a transaction, and commits it.
fn finish(
    alloc: Global,
    repo: Repo<MemDisk>,
    txn: HeldTxn<MemBench>,
    edits: &str,
    out: &mut Transcript,
) -> Repo<MemDisk> {
    let rt = ();
    let mut txn = txn;
    let mut book = repo.reader(&rt, alloc);
    let done = edit_all(alloc, &mut book, &mut txn, edits, out);
    let mut repo = Repo::of_reader(book);
    if !done || txn.is_spent() {
        let _ = repo.purge(&rt, txn);
        return repo;
    }
    let (back, answer) = repo.commit(&rt, alloc, txn, Pairs::new(alloc), MOMENT, &NoGate);
    let mut repo = back;
    say_answer(&mut repo, answer, out);
    repo
}

// `BASE EDIT, ..`
fn do_job(alloc: Global, repo: Repo<MemDisk>, job: &str, out: &mut Transcript) -> Repo<MemDisk> {
    let rt = ();
    let (base, edits) = cut(job);
    let Some(base) = RevNum::plain(base.as_bytes()) else {
        out.say("? no revision");
        return repo;
    };
    let (repo, begun) = repo.begin(&rt, alloc, base);
    match begun {
        Ok(txn) => finish(alloc, repo, txn, edits, out),
        Err(fault) => {
            say_begin_fault(&fault, out);
            repo
        }
    }
}

/// Does jobs one after another: each begins a transaction on a revision, edits it and commits it.
pub fn do_jobs(alloc: Global, repo: Repo<MemDisk>, jobs: &str, out: &mut Transcript) -> MemDisk {
    let mut repo = repo;
    let mut is_first = true;
    for job in jobs.split("; ") {
        if !is_first {
            out.say("; ");
        }
        is_first = false;
        repo = do_job(alloc, repo, job, out);
    }
    repo.close()
}
