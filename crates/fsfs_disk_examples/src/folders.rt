// Examples over real folders, below the one that the program runs in.
ghost use Rattle.std.specs.Prelude.{◌≡◌, IsTrue};

use crate::calls::{call, look};
use crate::line::Call;
use crate::words::Words;
use anyhow::{Result, bail};
use fsfs_disk::{Access, Disk, Host};
use fsfs_hostcalls::HostFileSystem;
use fsfs_memory::{Transcript, bytes_of, cut};
use fsfs_mount::FolderHost;
use std::alloc::Global;
use std::fs;
use std::os::unix::fs::symlink;

/// Where the repository of an example stands.
const REPOSITORY: &str = "R";

// What another program does to the folder meanwhile.
fn act(rt: &HostRuntime, line: &str, out: &mut Transcript) -> Result<()> {
    let mut words = Words::of(line);
    match words.word() {
        "make" => fs::create_dir_all(rt, words.word())?,
        "drop" => fs::remove_dir(rt, words.word())?,
        "clear" => fs::remove_dir_all(rt, words.word())?,
        "move" => fs::rename(rt, words.word(), words.word())?,
        "write" => {
            let path = words.word();
            let bytes = bytes_of(rt.alloc(), words.rest())?;
            fs::write(rt, path, bytes.as_slice())?;
        }
        "link" => symlink(rt, words.word(), words.word())?,
        "there" => {
            let is_there = fs::exists(rt, words.word())?;
            out.say(if is_there { "there" } else { "nothing there" });
            return Ok(());
        }
        _ => bail!("no such line"),
    }
    out.say("done");
    Ok(())
}

// Another host takes the same folder for the same and gives it back, as far as it may.
fn take_beside<H: Host>(beside: &mut H, access: Access, out: &mut Transcript) {
    match beside.mount(REPOSITORY, access) {
        Ok(disk) => {
            out.say("mounted");
            beside.unmount(disk);
        }
        Err(_) => out.say("refused"),
    }
}

// A line that only looks.
fn look_line<D: Disk>(alloc: Global, disk: &mut D, line: &str, out: &mut Transcript) -> Result<()>
    ensures { D.mount_path disk.new ≡ D.mount_path disk.old }
{
    match Call::read(line)? {
        Call::Look(asked) => look(alloc, disk, &asked, out),
        _ => bail!("a look changes nothing"),
    }
}

// A line behind a mount that only looks.
fn look_or_act<D: Disk>(
    rt: &HostRuntime,
    disk: &mut D,
    line: &str,
    out: &mut Transcript,
) -> Result<()>
    ensures { D.mount_path disk.new ≡ D.mount_path disk.old }
{
    match line.strip_prefix("outside ") {
        Some(done) => act(rt, done, out),
        None => look_line(rt.alloc(), disk, line, out),
    }
}

// A line behind a mount that writes.
fn write_line<D: Disk, H: Host>(
    rt: &HostRuntime,
    disk: &mut D,
    bench: &mut Option<D::Bench>,
    beside: &mut H,
    access: Access,
    line: &str,
    out: &mut Transcript,
) -> Result<()>
where
    D::Bench: Drop,
    requires { IsTrue (D.may_write disk.old) }
    ensures right { D.may_write disk.new ≡ D.may_write disk.old }
    ensures mounted { D.mount_path disk.new ≡ D.mount_path disk.old }
{
    if line == "beside" {
        take_beside(beside, access, out);
        return Ok(());
    }
    match line.strip_prefix("outside ") {
        Some(done) => act(rt, done, out),
        None => call(rt.alloc(), disk, bench, line, out),
    }
}

// The lines behind a mount that writes.
fn write_lines<D: Disk, H: Host>(
    rt: &HostRuntime,
    disk: &mut D,
    beside: &mut H,
    access: Access,
    lines: &[&str],
    out: &mut Transcript,
)
where
    D::Bench: Drop,
    requires { IsTrue (D.may_write disk.old) }
    ensures mounted { D.mount_path disk.new ≡ D.mount_path disk.old }
{
    let mut bench = None;
    for line in lines {
        begin_line(line, out);
        let done = write_line(rt, disk, &mut bench, beside, access, line, out);
        end_line(done, out);
    }
}

// The lines behind a mount that only looks.
fn look_lines<D: Disk>(rt: &HostRuntime, disk: &mut D, lines: &[&str], out: &mut Transcript)
    ensures { D.mount_path disk.new ≡ D.mount_path disk.old }
{
    for line in lines {
        begin_line(line, out);
        let done = look_or_act(rt, disk, line, out);
        end_line(done, out);
    }
}

fn begin_line(line: &str, out: &mut Transcript) {
    out.say(line);
    out.say(": ");
}

fn end_line(done: Result<()>, out: &mut Transcript) {
    if let Err(error) = done {
        out.tell("? ", &error);
    }
    out.say("\n");
}

// From a mount until it is given back.
fn session<H: Host>(
    rt: &HostRuntime,
    host: &mut H,
    beside: &mut H,
    access: Access,
    lines: &[&str],
    out: &mut Transcript,
)
where
    <H::Mounted as Disk>::Bench: Drop,
{
    match host.mount(REPOSITORY, access) {
        Ok(mut disk) => {
            out.say("mounted\n");
            match access {
                Access::Read => look_lines(rt, &mut disk, lines, out),
                Access::Write => write_lines(rt, &mut disk, beside, access, lines, out),
                Access::Create => write_lines(rt, &mut disk, beside, access, lines, out),
            }
            host.unmount(disk);
        }
        Err(_) => out.say("refused\n"),
    }
}

// How many lines stand before the one that gives a mount back.
fn length_of_session(lines: &[&str]) -> usize {
    lines
        .iter()
        .position(|line| *line == "unmount")
        .unwrap_or(lines.len())
}

// What a line that takes the folder wants it for.
fn access_of(word: &str) -> Option<Access> {
    match word {
        "mount" => Some(Access::Create),
        "open" => Some(Access::Write),
        "look" => Some(Access::Read),
        _ => None,
    }
}

/// Does what the lines say. Two hosts share the folder; from a line `mount`, `open` or `look`, with `second` behind it or not, to
/// `unmount` one of them has it: to make a repository, to change the one that is there, or to look at it.
pub fn play(rt: &HostRuntime, lines: &[&str], out: &mut Transcript) -> Result<()> {
    let alloc = rt.alloc();
    let mut first = FolderHost::new(alloc, HostFileSystem::new(rt.clone()?));
    let mut second = FolderHost::new(alloc, HostFileSystem::new(rt.clone()?));
    let mut until = 0;
    for (at, line) in lines.iter().enumerate() {
        if at < until {
            continue;
        }
        let behind = lines.get(at.saturating_add(1)..).unwrap_or(&[]);
        let length = length_of_session(behind);
        let inner = behind.get(..length).unwrap_or(&[]);
        begin_line(line, out);
        let (word, which) = cut(line);
        match (access_of(word), which) {
            (Some(access), "second") => session(rt, &mut second, &mut first, access, inner, out),
            (Some(access), _) => session(rt, &mut first, &mut second, access, inner, out),
            (None, _) => {
                let done = act(rt, line.strip_prefix("outside ").unwrap_or(""), out);
                end_line(done, out);
                continue;
            }
        }
        out.say("unmounted\n");
        until = at.saturating_add(length).saturating_add(2);
    }
    Ok(())
}
