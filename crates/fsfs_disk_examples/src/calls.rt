// Calls of a disk, and what they answer.
ghost use Rattle.std.specs.Prelude.{◌≡◌, IsTrue};

use crate::bench_calls::call_bench;
use crate::line::{Call, Change, Look, Part, Published};
use anyhow::{Result, bail};
use fsfs_base::{Failed, Name};
use fsfs_disk::{Disk, Label, PublishFault, publish};
use fsfs_memory::{Transcript, bytes_of};
use std::alloc::Global;

pub fn say_done(out: &mut Transcript, answer: Result<(), Failed>) {
    match answer {
        Ok(()) => out.say("done"),
        Err(_) => out.say("failed"),
    }
}

pub fn say_there(out: &mut Transcript, answer: Result<bool, Failed>) {
    match answer {
        Ok(true) => out.say("done"),
        Ok(false) => out.say("nothing there"),
        Err(_) => out.say("failed"),
    }
}

pub fn say_length(out: &mut Transcript, answer: Result<Option<u64>, Failed>) {
    match answer {
        Ok(Some(length)) => out.show(&length),
        Ok(None) => out.say("nothing there"),
        Err(_) => out.say("failed"),
    }
}

/// Writes how many bytes were read, and the whole buffer.
pub fn say_bytes(out: &mut Transcript, answer: Result<Option<usize>, Failed>, buffer: &[u8]) {
    match answer {
        Ok(Some(count)) => {
            out.show(&count);
            out.say(" ");
            out.bytes(buffer);
        }
        Ok(None) => out.say("nothing there"),
        Err(_) => out.say("failed"),
    }
}

fn read<D: Disk>(alloc: Global, disk: &mut D, part: &Part, out: &mut Transcript) -> Result<()>
    ensures right { D.may_write disk.new ≡ D.may_write disk.old }
    ensures mounted { D.mount_path disk.new ≡ D.mount_path disk.old }
{
    let mut buffer = vec![in alloc; b'.'; part.length.min(64) as usize]?;
    let found = disk.read(&part.name, part.offset, &mut buffer);
    say_bytes(out, found, &buffer);
    Ok(())
}

fn say_names(out: &mut Transcript, names: &[Name]) {
    out.say("listed");
    for name in names {
        out.say(" ");
        out.say(name.as_str());
    }
}

fn list<D: Disk>(alloc: Global, disk: &mut D, out: &mut Transcript)
    ensures right { D.may_write disk.new ≡ D.may_write disk.old }
    ensures mounted { D.mount_path disk.new ≡ D.mount_path disk.old }
{
    match disk.list(alloc, &Name::new("db/transactions")) {
        Ok(names) => say_names(out, &names),
        Err(_) => out.say("failed"),
    }
}

/// Asks the disk, and writes what it answers.
pub fn look<D: Disk>(alloc: Global, disk: &mut D, look: &Look, out: &mut Transcript) -> Result<()>
    ensures right { D.may_write disk.new ≡ D.may_write disk.old }
    ensures mounted { D.mount_path disk.new ≡ D.mount_path disk.old }
{
    match look {
        Look::Read(part) => return read(alloc, disk, part, out),
        Look::Size(name) => say_length(out, disk.size(name)),
        Look::List => list(alloc, disk, out),
        Look::Firm => say_done(out, disk.firm_names()),
    }
    Ok(())
}

// Puts a file and gives it another name.
fn put_and_move<D: Disk>(disk: &mut D, from: &Name, to: &Name, bytes: &[u8]) -> Result<(), Failed>
    requires { IsTrue (D.may_write disk.old) }
    ensures right { D.may_write disk.new ≡ D.may_write disk.old }
    ensures mounted { D.mount_path disk.new ≡ D.mount_path disk.old }
{
    disk.put(from, bytes)?;
    disk.rename(from, to)
}

// A bench is made, and is the last one then.
fn make_bench<D: Disk>(
    disk: &mut D,
    bench: &mut Option<D::Bench>,
    label: &Label,
) -> Result<(), Failed>
where
    D::Bench: Drop,
    requires { IsTrue (D.may_write disk.old) }
    ensures right { D.may_write disk.new ≡ D.may_write disk.old }
    ensures mounted { D.mount_path disk.new ≡ D.mount_path disk.old }
{
    let made = disk.bench(label)?;
    *bench = Some(made);
    Ok(())
}

fn publish_one<D: Disk>(
    alloc: Global,
    disk: &mut D,
    published: &Published<'_>,
    out: &mut Transcript,
) -> Result<()>
    requires { IsTrue (D.may_write disk.old) }
    ensures right { D.may_write disk.new ≡ D.may_write disk.old }
    ensures mounted { D.mount_path disk.new ≡ D.mount_path disk.old }
{
    let first = bytes_of(alloc, published.first)?;
    let second = bytes_of(alloc, published.second)?;
    let file = Name::new("rev");
    match publish(
        disk,
        &published.label,
        &file,
        &published.to,
        &first,
        &second,
    ) {
        Ok(()) => out.say("done"),
        Err(PublishFault::Disk) => out.say("the disk failed"),
        Err(PublishFault::Bench) => out.say("the bench failed"),
    }
    Ok(())
}

fn change_files<D: Disk>(
    alloc: Global,
    disk: &mut D,
    change: &Change<'_>,
    out: &mut Transcript,
) -> Result<()>
    requires { IsTrue (D.may_write disk.old) }
    ensures right { D.may_write disk.new ≡ D.may_write disk.old }
    ensures mounted { D.mount_path disk.new ≡ D.mount_path disk.old }
{
    match change {
        Change::Put(name, text) => {
            let bytes = bytes_of(alloc, text)?;
            say_done(out, disk.put(name, &bytes));
        }
        Change::Move(from, to, text) => {
            let bytes = bytes_of(alloc, text)?;
            say_done(out, put_and_move(disk, from, to, &bytes));
        }
        Change::Remove(name) => say_there(out, disk.remove(name)),
        Change::MakeFolder(name) => say_done(out, disk.make_folder(name)),
        Change::DropFolder(name) => say_done(out, disk.drop_folder(name)),
        Change::Publish(published) => return publish_one(alloc, disk, published, out),
        _ => {}
    }
    Ok(())
}

/// Changes what stands on the disk, and writes what it answers.
pub fn change<D: Disk>(
    alloc: Global,
    disk: &mut D,
    bench: &mut Option<D::Bench>,
    change: &Change<'_>,
    out: &mut Transcript,
) -> Result<()>
where
    D::Bench: Drop,
    requires { IsTrue (D.may_write disk.old) }
    ensures right { D.may_write disk.new ≡ D.may_write disk.old }
    ensures mounted { D.mount_path disk.new ≡ D.mount_path disk.old }
{
    match change {
        Change::MakeBench(label) => say_done(out, make_bench(disk, bench, label)),
        Change::DropBench(label) => {
            let handed_in = bench.take();
            say_there(out, disk.drop_bench(label, handed_in));
        }
        Change::DropLabel(label) => say_there(out, disk.drop_bench(label, None)),
        other => return change_files(alloc, disk, other, out),
    }
    Ok(())
}

/// Makes the call that a line says, and writes what it answers.
pub fn call<D: Disk>(
    alloc: Global,
    disk: &mut D,
    bench: &mut Option<D::Bench>,
    line: &str,
    out: &mut Transcript,
) -> Result<()>
where
    D::Bench: Drop,
    requires { IsTrue (D.may_write disk.old) }
    ensures right { D.may_write disk.new ≡ D.may_write disk.old }
    ensures mounted { D.mount_path disk.new ≡ D.mount_path disk.old }
{
    match Call::read(line)? {
        Call::Look(asked) => look(alloc, disk, &asked, out),
        Call::Change(made) => change(alloc, disk, bench, &made, out),
        Call::OfBench(made) => match bench {
            Some(bench) => call_bench(alloc, bench, &made, out),
            None => bail!("no bench was made"),
        },
    }
}
