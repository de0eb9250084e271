// Examples over the disk on bare calls, which are kept in memory.
ghost use Rattle.std.specs.Prelude.{◌≡◌, IfOk, IsTrue};
ghost use Rattle.fsfs_memcalls.specs.Recorded.{record_of};

use crate::calls::call;
use crate::failing::Failing;
use crate::left::Crash;
use anyhow::{Result, bail};
use fsfs_disk::Disk;
use fsfs_folders::{Calls, Path};
use fsfs_memcalls::MemCalls;
use fsfs_memory::Transcript;
use fsfs_mount::FolderDisk;
use std::alloc::Global;

/// The folders of an empty repository, and in that of transactions some that are none of a transaction.
pub const REPOSITORY: [&str; 11] = [
    "",
    "db",
    "db/revs",
    "db/revs/0",
    "db/transactions",
    "db/transactions/x",
    "db/transactions/0-1",
    "db/transactions/0-01.txn",
    "db/transactions/0-A.txn",
    "db/transactions/0-1.txn.old",
    "db/txn-protorevs",
];

fn paths(alloc: Global, folders: &[&str]) -> Result<Vec<Path>> {
    let mut paths = Vec::new(alloc);
    for folder in folders {
        if folder.len() > 160 {
            bail!("too long a path");
        }
        paths.push(Path::new(folder))?;
    }
    Ok(paths)
}

fn begun(
    alloc: Global,
    folders: &[&str],
    links: &[&str],
    failing: Failing,
) -> Result<FolderDisk<MemCalls>>
    ensures { IfOk result (λ disk. IsTrue (⟦<FolderDisk<MemCalls> as Disk>⟧.may_write disk)) }
{
    let calls = MemCalls::with_folders(alloc, paths(alloc, folders)?);
    let calls = failing_calls(calls.with_links(paths(alloc, links)?), failing);
    Ok(FolderDisk::new(alloc, calls, String::new(alloc), true))
}

fn failing_calls(calls: MemCalls, failing: Failing) -> MemCalls
    ensures { record_of result ≡ record_of calls }
{
    match failing {
        Failing::Never => calls,
        Failing::OfDisk(numbers) => calls.failing(numbers, false),
        Failing::Made(numbers) => calls.failing(numbers, true),
        Failing::OfBench(numbers) => calls.failing_in_part(numbers),
        Failing::Behind(passing) => calls.fuse(passing),
    }
}

fn make_call(
    alloc: Global,
    disk: &mut FolderDisk<MemCalls>,
    bench: &mut Option<<FolderDisk<MemCalls> as Disk>::Bench>,
    line: &str,
    counts: bool,
    out: &mut Transcript,
)
    requires { IsTrue (⟦<FolderDisk<MemCalls> as Disk>⟧.may_write disk.old) }
    ensures { ⟦<FolderDisk<MemCalls> as Disk>⟧.may_write disk.new ≡ ⟦<FolderDisk<MemCalls> as Disk>⟧.may_write disk.old }
{
    let before = disk.calls().count_calls();
    out.say(line);
    out.say(": ");
    if let Err(error) = call(alloc, disk, bench, line, out) {
        out.tell("? ", &error);
    }
    if counts {
        let made = disk.calls().count_calls().saturating_sub(before);
        out.tell(", calls ", &made);
    }
    out.say("\n");
}

// The disk after these calls.
fn after(
    alloc: Global,
    folders: &[&str],
    links: &[&str],
    failing: &str,
    calls: &[&str],
    out: &mut Transcript,
) -> Result<FolderDisk<MemCalls>> {
    let counts = failing == "counted";
    let failing = if counts { "" } else { failing };
    let mut disk = begun(alloc, folders, links, Failing::read(alloc, failing)?)?;
    let mut bench = None;
    for line in calls {
        make_call(alloc, &mut disk, &mut bench, line, counts, out);
    }
    Ok(disk)
}

// The length of a file, or how many folders stand in one.
fn say_left(alloc: Global, left: &mut MemCalls, word: &str, out: &mut Transcript) -> Result<()> {
    out.say(" ");
    out.say(word);
    out.say(" ");
    let path = word.strip_suffix("/").unwrap_or(word);
    if path.len() > 160 {
        bail!("too long a path");
    }
    if path.len() < word.len() {
        match left.folders_in(alloc, &Path::new(path)) {
            Ok(names) => out.show(&names.len()),
            Err(_) => out.say("-"),
        }
        return Ok(());
    }
    match left.open(&Path::new(path)) {
        Ok(file) => match left.length(&file) {
            Ok(length) => out.show(&length),
            Err(_) => out.say("?"),
        },
        Err(_) => out.say("-"),
    }
    Ok(())
}

// What a crash leaves now.
fn crash(alloc: Global, calls: &MemCalls, crash: &Crash<'_>, out: &mut Transcript) -> Result<()> {
    let mut left = calls.crash(&crash.picks, crash.all_bytes)?;
    for word in crash.names.split(' ') {
        say_left(alloc, &mut left, word, out)?;
    }
    Ok(())
}

/// Makes the calls where these folders stand, and then each crash behind them. `crash` alone prints the bare calls that did something; where `failing` is
/// `counted`, no call fails, and it is printed how many bare calls each took.
pub fn play(
    alloc: Global,
    folders: &[&str],
    failing: &str,
    calls: &[&str],
    crashes: &[&str],
    out: &mut Transcript,
) -> Result<()> {
    let disk = after(alloc, folders, &[], failing, calls, out)?;
    tell_crashes(alloc, &disk, crashes, out)
}

/// The same where a link stands at one more path.
pub fn play_linked(
    alloc: Global,
    link: &str,
    calls: &[&str],
    crashes: &[&str],
    out: &mut Transcript,
) -> Result<()> {
    let disk = after(alloc, &REPOSITORY, &[link], "", calls, out)?;
    tell_crashes(alloc, &disk, crashes, out)
}

// The failures, and what each crash leaves.
fn tell_crashes(
    alloc: Global,
    disk: &FolderDisk<MemCalls>,
    crashes: &[&str],
    out: &mut Transcript,
) -> Result<()> {
    out.tell("faults ", &disk.faults());
    out.tell(", of benches ", &disk.bench_faults());
    out.say("\n");
    for line in crashes {
        if *line == "crash" {
            out.say(disk.calls().told(alloc)?.as_str());
        } else {
            out.say(line);
            out.say(":");
            crash(alloc, disk.calls(), &Crash::read(alloc, line)?, out)?;
            out.say("\n");
        }
    }
    Ok(())
}
