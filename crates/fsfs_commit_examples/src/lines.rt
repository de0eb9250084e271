// The lines of an example, and what they answer.
use crate::answers::say_txns;
use crate::calls::{list, make, put, remove, show};
use crate::jobs::do_jobs;
use crate::packs::pack_meanwhile;
use crate::racing::race;
use crate::turns::purge_on;
use fsfs_example_calls::{begin_on, look, say_open_fault};
use fsfs_memory::{Example, MemDisk, Transcript, cut};
use fsfs_repo::{OpenedRepo, Repo};
use std::alloc::Global;
use std::sync::Wait;
use std::thread::Threads;

// Lists the transactions of a repository that is open.
fn list_on(alloc: Global, repo: Repo<MemDisk>, out: &mut Transcript) -> MemDisk {
    let mut repo = repo;
    let rt = ();
    match repo.txns(&rt, alloc) {
        Ok(names) => say_txns(alloc, &names, out),
        Err(_) => out.say("failed"),
    }
    repo.close()
}

// Opens the repository, and makes the call of a line on it.
fn call_opened(
    alloc: Global,
    disk: MemDisk,
    word: &str,
    rest: &str,
    out: &mut Transcript,
) -> MemDisk {
    match Repo::open(alloc, disk) {
        Ok(OpenedRepo { repo, .. }) => match word {
            "list-open" => list_on(alloc, repo, out),
            _ => do_jobs(alloc, repo, rest, out),
        },
        Err(unopened) => {
            say_open_fault(&unopened.why, out);
            unopened.disk
        }
    }
}

/// Makes the call of a line, writes what it answers, and gives the disk back.
pub fn call<T: Threads + Wait + Sync>(
    rt: &T,
    alloc: Global,
    disk: MemDisk,
    line: &str,
    out: &mut Transcript,
) -> MemDisk {
    let mut disk = disk;
    let (word, rest) = cut(line);
    match word {
        "empty" => {
            out.say("no files");
            return MemDisk::new(alloc);
        }
        "create" => make(alloc, &mut disk, out),
        "list" => list(alloc, &mut disk, out),
        "remove" => remove(&mut disk, rest, out),
        "put" => put(alloc, &mut disk, rest, out),
        "show" => show(&disk, rest, out),
        "begin" => {
            let (disk, _begun) = begin_on(alloc, disk, rest, out);
            return disk;
        }
        "purge" => return purge_on(alloc, disk, rest, out),
        "svnlook" => return look(rt, alloc, disk, rest, out),
        "race" => return race(alloc, disk, rest, out),
        "pack-meanwhile" => return pack_meanwhile(rt, alloc, disk, rest, out),
        "list-open" | "jobs" => return call_opened(alloc, disk, word, rest, out),
        _ => out.say("? no such line"),
    }
    disk
}

// Makes the calls of these lines, and writes each line and its answer.
fn call_lines<T: Threads + Wait + Sync>(
    rt: &T,
    alloc: Global,
    disk: MemDisk,
    lines: &[&str],
    out: &mut Transcript,
) -> MemDisk {
    let mut left = disk;
    for line in lines {
        out.say(line);
        out.say(": ");
        left = call(rt, alloc, left, line, out);
        if !out.as_str().ends_with("\n") {
            out.say("\n");
        }
    }
    left
}

/// The disk behind the lines of an example. What its own lines answer is written.
pub fn play_lines<T: Threads + Wait + Sync>(
    rt: &T,
    alloc: Global,
    example: Example<'_>,
    out: &mut Transcript,
) -> MemDisk {
    let mut unseen = Transcript::new(alloc);
    let disk = call_lines(rt, alloc, MemDisk::new(alloc), example.first, &mut unseen);
    call_lines(rt, alloc, disk, example.lines, out)
}
