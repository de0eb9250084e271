// Examples over a disk in memory.
use crate::calls::call;
use crate::failing::Failing;
use crate::left::Crash;
use crate::words::Words;
use anyhow::Result;
use fsfs_disk::Disk;
use fsfs_memory::{MemDisk, Transcript};
use std::alloc::Global;

fn begun(alloc: Global, failing: Failing) -> MemDisk {
    let disk = MemDisk::new(alloc);
    let none = Vec::new(alloc);
    match failing {
        Failing::Never => disk,
        Failing::OfDisk(calls) => disk.failing(calls, none),
        Failing::Made(calls) => disk.failing(calls, none),
        Failing::OfBench(calls) => disk.failing(none, calls),
        Failing::Behind(passing) => disk.fuse(passing),
    }
}

fn make_call(
    alloc: Global,
    disk: &mut MemDisk,
    bench: &mut Option<<MemDisk as Disk>::Bench>,
    line: &str,
    out: &mut Transcript,
) {
    out.say(line);
    out.say(": ");
    if let Err(error) = call(alloc, disk, bench, line, out) {
        out.tell("? ", &error);
    }
    out.say("\n");
}

// The disk after these calls.
fn after(alloc: Global, failing: Failing, calls: &[&str], out: &mut Transcript) -> MemDisk {
    let mut disk = begun(alloc, failing);
    let mut bench = None;
    for line in calls {
        make_call(alloc, &mut disk, &mut bench, line, out);
    }
    disk
}

fn say_left(left: &MemDisk, word: &str, out: &mut Transcript) -> Result<()> {
    out.say(" ");
    out.say(word);
    out.say(" ");
    if word == "labels" {
        out.show(&left.labels().len());
        return Ok(());
    }
    match left.file(&Words::of(word).name()?) {
        Some(bytes) => out.show(&bytes.len()),
        None => out.say("-"),
    }
    Ok(())
}

// What a crash leaves behind these calls.
fn crash(
    alloc: Global,
    failing: Failing,
    calls: &[&str],
    crash: &Crash<'_>,
    out: &mut Transcript,
) -> Result<()> {
    let mut unseen = Transcript::new(alloc);
    let left = after(alloc, failing, calls, &mut unseen).crash(&crash.picks)?;
    for word in crash.names.split(' ') {
        say_left(&left, word, out)?;
    }
    Ok(())
}

/// Makes the calls, and then each crash behind them.
pub fn play(
    alloc: Global,
    failing: &str,
    calls: &[&str],
    crashes: &[&str],
    out: &mut Transcript,
) -> Result<()> {
    let disk = after(alloc, Failing::read(alloc, failing)?, calls, out);
    out.tell("faults ", &disk.faults());
    out.tell(", of benches ", &disk.bench_faults());
    out.tell(", labels ", &disk.labels().len());
    out.say("\n");
    for line in crashes {
        out.say(line);
        out.say(":");
        let picked = Crash::read(alloc, line)?;
        crash(alloc, Failing::read(alloc, failing)?, calls, &picked, out)?;
        out.say("\n");
    }
    Ok(())
}
