// The steps of the machine as lines write them.
use crate::words::Words;
use anyhow::Result;
use fsfs_base::{FsPath, Pairs, PropName};
use fsfs_core::{Bytes, Picks, Step, Went};
use fsfs_model::Edit;
use std::alloc::Global;

/// So many labels come through a stop.
const LABELS: &str = "1111";

// Sets the property `color` of a path.
fn color(alloc: Global, words: &mut Words<'_>, path: FsPath) -> Edit {
    match PropName::parse(alloc, "color") {
        Ok(name) => Edit::SetProp {
            path,
            name,
            value: Some(words.bytes(alloc)),
        },
        Err(_) => {
            words.refuse();
            Edit::Delete { path }
        }
    }
}

// An edit of the transaction at a place.
fn edit_of(alloc: Global, word: &str, words: &mut Words<'_>, youngest: u64) -> Edit {
    let path = words.path(alloc);
    match word {
        "mkdir" => Edit::MakeDir { path },
        "mkfile" => Edit::MakeFile { path },
        "rm" => Edit::Delete { path },
        "put" => Edit::PutText {
            path,
            text: words.bytes(alloc),
        },
        "copy" => Edit::Copy {
            rev: words.revision(youngest),
            from: path,
            to: words.path(alloc),
        },
        "color" => color(alloc, words, path),
        _ => {
            words.refuse();
            Edit::Delete { path }
        }
    }
}

// A step of a transaction under way.
fn step_of_txn(alloc: Global, word: &str, words: &mut Words<'_>, youngest: u64) -> Step {
    let txn = words.number();
    if word == "merge" {
        let head = words.revision(youngest);
        return Step::Merge { txn, head };
    }
    let edit = edit_of(alloc, word, words, youngest);
    Step::Edit { txn, edit }
}

// A step that reads.
fn reading(alloc: Global, word: &str, words: &mut Words<'_>, youngest: u64) -> Step {
    let went = Went::Fine;
    match word {
        "read" => Step::Read {
            pass: words.number(),
            rev: words.number(),
            offset: 0,
            length: 1000,
            went,
        },
        "properties" => Step::ReadProps {
            pass: words.number(),
            rev: words.number(),
            went,
        },
        "floor" => {
            let pass = words.number();
            Step::ReadFloor { pass, went }
        }
        "transactions" => {
            let pass = words.number();
            Step::ListTxns { pass, went }
        }
        "labels" => Step::ListLabels { went },
        _ => step_of_txn(alloc, word, words, youngest),
    }
}

// The first call of a commit.
fn put_rev(alloc: Global, words: &mut Words<'_>) -> Step {
    Step::AdoptRev {
        pass: words.number(),
        txn: words.number(),
        properties: Pairs::new(alloc),
        bytes: Bytes::new(words.bytes(alloc)),
        went: words.went(),
    }
}

// A step that drops a label.
fn dropping(alloc: Global, word: &str, words: &mut Words<'_>, youngest: u64) -> Step {
    match word {
        "purge" => Step::Purge {
            pass: words.number(),
            txn: words.number(),
            went: words.went(),
        },
        "purge-spent" => Step::PurgeSpent {
            pass: words.number(),
            spent: words.number(),
            went: words.went(),
        },
        "drop-label" => Step::DropLabel {
            name: words.number() as u128,
            went: words.went(),
        },
        _ => reading(alloc, word, words, youngest),
    }
}

// A step that calls the disk.
fn calling(alloc: Global, word: &str, words: &mut Words<'_>, youngest: u64) -> Step {
    match word {
        "draw" => Step::Draw {
            pass: words.number(),
            base: words.revision(youngest),
            went: words.went(),
        },
        "put-rev" => put_rev(alloc, words),
        "call" => Step::Call {
            pass: words.number(),
            place: words.place(),
            went: words.went(),
        },
        "bench" => Step::MakeBench {
            pass: words.number(),
            name: words.number(),
            went: words.went(),
        },
        "remove-old" => Step::RemoveOld {
            pass: words.number(),
            rev: words.number(),
            went: words.went(),
        },
        "beside" => Step::Beside {
            pass: words.number(),
            place: words.place(),
            went: words.went(),
        },
        _ => dropping(alloc, word, words, youngest),
    }
}

// A step of the passes.
fn passing(alloc: Global, word: &str, words: &mut Words<'_>, youngest: u64) -> Step {
    match word {
        "lock" => Step::TakeLock {
            pass: words.number(),
        },
        "give" => Step::GiveLock {
            pass: words.number(),
        },
        "stick" => Step::StickLock {
            pass: words.number(),
        },
        "reveal" => Step::Reveal {
            pass: words.number(),
        },
        "look" => Step::Look {
            pass: words.number(),
        },
        "split" => Step::Split {
            pass: words.number(),
        },
        "join" => Step::Join {
            pass: words.number(),
            other: words.number(),
        },
        _ => calling(alloc, word, words, youngest),
    }
}

// The changes that are picked come through, the newest first, and all labels.
fn crash(alloc: Global, words: &mut Words<'_>) -> Step {
    let picks = words.picks(alloc);
    let mut all = Words::new(LABELS);
    let labels = all.picks(alloc);
    Step::Crash {
        picks: Picks { picks },
        labels: Picks { picks: labels },
    }
}

/// The step that a line writes, of a machine whose youngest revision is this one.
pub fn step_of(alloc: Global, line: &str, youngest: u64) -> Result<Step> {
    let mut words = Words::new(line);
    let step = match words.word() {
        "close" => Step::Close,
        "open" => Step::Open { went: words.went() },
        "crash" => crash(alloc, &mut words),
        word => passing(alloc, word, &mut words, youngest),
    };
    words.end()?;
    Ok(step)
}

/// Whether a line is a step that calls the disk, so that it can be said how that goes.
pub fn calls_the_disk(line: &str) -> bool {
    matches!(
        Words::new(line).word(),
        "draw" | "put-rev" | "call" | "bench" | "remove-old" | "beside" | "open"
    )
}
