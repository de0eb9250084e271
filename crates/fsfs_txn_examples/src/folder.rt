// Transactions in a real folder.
ghost use Rattle.std.specs.Prelude.{◌≡◌, IsTrue};

use crate::book::book_over;
use crate::cast::Cast;
use fsfs_disk::{Access, Bench, Disk, Host};
use fsfs_example_calls::begin_on;
use fsfs_hostcalls::HostFileSystem;
use fsfs_memory::{Transcript, cut, lines_of};
use fsfs_mount::FolderHost;
use fsfs_revision::Book;
use std::alloc::Global;
use std::io;
use std::rt::Clock;
use std::time::Instant;

// Begins a transaction by each of the lines.
fn begin_all<D: Disk>(
    alloc: Global,
    disk: D,
    lines: &[&str],
    cast: &mut Cast<D::Bench>,
    out: &mut Transcript,
) -> D
where
    D::Bench: Drop,
    requires { IsTrue (D.may_write disk) }
    ensures right { IsTrue (D.may_write result) }
    ensures mounted { D.mount_path result ≡ D.mount_path disk }
{
    let mut left = disk;
    for line in lines {
        let (_, rest) = cut(line);
        out.say(line);
        out.say(": ");
        let (back, begun) = begin_on(alloc, left, rest, out);
        left = back;
        cast.add(begun, out);
        out.say("\n");
    }
    left
}

// Makes the calls of the lines. A line `clock` tells the microseconds since the one before.
fn call_all<R: Clock, B: Book, W: Bench + Drop>(
    rt: &R,
    alloc: Global,
    book: &mut B,
    lines: &[&str],
    cast: &mut Cast<W>,
    out: &mut Transcript,
) -> io::Result<()> {
    let mut start = Instant::now(rt)?;
    for line in lines {
        out.say(line);
        out.say(": ");
        if *line == "clock" {
            out.show(&start.elapsed(rt)?.as_micros());
            start = Instant::now(rt)?;
        } else {
            cast.call(alloc, book, line, out);
        }
        out.say("\n");
    }
    Ok(())
}

// The first lines begin transactions, and the others are about these.
fn play_on<R: Clock, D: Disk + Drop>(
    rt: &R,
    alloc: Global,
    disk: D,
    lines: &[&str],
    out: &mut Transcript,
) -> io::Result<()>
where
    D::Bench: Drop,
    requires { IsTrue (D.may_write disk) }
{
    let count = lines
        .iter()
        .position(|line| !line.starts_with("begin "))
        .unwrap_or(lines.len());
    let begins = lines.get(..count).unwrap_or(&[]);
    let others = lines.get(count..).unwrap_or(&[]);
    let mut cast = Cast::new(alloc);
    let disk = begin_all(alloc, disk, begins, &mut cast, out);
    match book_over(alloc, disk, out) {
        Ok(mut book) => call_all(rt, alloc, &mut book, others, &mut cast, out),
        Err(_disk) => Ok(()),
    }
}

// The disk isn't handed back: the program ends, and with it the locks.
fn play_mounted<R: Clock, H: Host>(
    rt: &R,
    alloc: Global,
    host: &mut H,
    repos: &str,
    lines: &[&str],
    out: &mut Transcript,
) -> io::Result<()>
where
    H::Mounted: Drop,
    <H::Mounted as Disk>::Bench: Drop,
{
    match host.mount(repos, Access::Write) {
        Ok(disk) => play_on(rt, alloc, disk, lines, out),
        Err(_) => {
            out.say("refused\n");
            Ok(())
        }
    }
}

/// Makes the calls of a text in the folder of a repository, and leaves there what they made.
pub fn play(rt: &HostRuntime, repos: &str, text: &str, out: &mut Transcript) -> anyhow::Result<()> {
    let alloc = rt.alloc();
    let lines = lines_of(alloc, text)?;
    let mut host = FolderHost::new(alloc, HostFileSystem::new(rt.clone()?));
    play_mounted(rt, alloc, &mut host, repos, &lines, out)?;
    Ok(())
}

fn begin_mounted<H: Host>(
    alloc: Global,
    host: &mut H,
    repos: &str,
    lines: &[&str],
    out: &mut Transcript,
)
where
    <H::Mounted as Disk>::Bench: Drop,
{
    match host.mount(repos, Access::Write) {
        Ok(disk) => {
            let mut cast = Cast::new(alloc);
            let disk = begin_all(alloc, disk, lines, &mut cast, out);
            host.unmount(disk);
        }
        Err(_) => out.say("refused\n"),
    }
}

/// Begins a transaction by each of these lines in the folder of a repository, and leaves them there.
pub fn begin(
    rt: &HostRuntime,
    repos: &str,
    lines: &[&str],
    out: &mut Transcript,
) -> anyhow::Result<()> {
    let mut host = FolderHost::new(rt.alloc(), HostFileSystem::new(rt.clone()?));
    begin_mounted(rt.alloc(), &mut host, repos, lines, out);
    Ok(())
}
