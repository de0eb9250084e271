// Looks at a repository.
ghost use Rattle.std.specs.Prelude.{◌≡◌, ◌≢◌, ◌≤◌, ◌<◌, ◌⊎◌, ℕ, List, [], Some, IfOk, IfErr, IfSome, MatchOption, option_map, unwrap_or};
ghost use Rattle.fsfs_revision.specs.Told.{Keeps};
ghost use Rattle.fsfs_base.specs.Failures.{Rose};
ghost use Rattle.fsfs_disk.specs.Trace.{FirmNames, files_now, FailsAt};
ghost use Rattle.fsfs_cli.specs.CommandFaults.{IsFromLook};
ghost use Rattle.fsfs_cli.specs.declared.faults.fault.Fault.TheVariants.{Request};
ghost use Rattle.fsfs_cli.specs.declared.faults.request_fault.RequestFault.TheVariants.{NoRev};
ghost use Rattle.fsfs_look.specs.Written.{Writes, HasDiskCause, HasSinkCause};
ghost use Rattle.fsfs_layout.specs.Opening.{small_texts, IsOpened};
ghost use Rattle.fsfs_top.specs.Command.{fault_of};
ghost use Rattle.fsfs_cli.specs.Requests.{printed_path};
ghost use Rattle.fsfs_cli.specs.declared.request.Look.TheVariants.{Dump, Verify, AtRevision};
ghost use Rattle.fsfs_top.specs.Looks.{AllBytes, KnowsAll, TextOf, LacksRevision, LooksInto, PrintsLook, LookIsDecided, looked_revision, IsFaultAt};
ghost use Rattle.fsfs_top.specs.Scenes.{SourceScene, scene, sink_scene};

use crate::output::{line_fault, print_revision, print_uuid};
use fsfs_base::{DiskPlace, FsPath, Gate, RevNum, Sink};
use fsfs_cli::{Fault, Look, OutsideFault, Printed, RequestFault, RevisionLook};
use fsfs_create::open;
use fsfs_disk::{Access, Disk, Host};
use fsfs_dump::dump;
use fsfs_fetch::{disk_of, over_disk};
use fsfs_history::{changed_text, history_text};
use fsfs_layout::Opened;
use fsfs_look::{LookError, author, cat, date, info, log, tree_text};
use fsfs_revision::RevProps;
use fsfs_stands::LookFault;
use fsfs_verify::verify;
use std::alloc::Global;
use std::thread::Threads;

// The revision of this number, if there is one.
fn up_to(youngest: RevNum, number: u64) -> Option<RevNum>
    ensures { MatchOption result (youngest < number) (λ rev. (rev ≡ number) × (rev ≤ youngest)) }
{
    if number <= youngest.get() as u64 {
        RevNum::new(number)
    } else {
        None
    }
}

// The revision that is looked at.
fn revision_of(look: &RevisionLook, opened: &Opened) -> Result<RevNum, Fault>
    ensures found { IfOk result (λ rev. (rev ≡ looked_revision look.now opened.now) × (rev ≤ opened.now.youngest)) }
    ensures lacking { IfErr result (λ fault. (rev : ℕ) × LacksRevision look.now opened.now rev × (fault ≡ Request (NoRev rev opened.now.youngest))) }
{
    match look.revision {
        None => Ok(opened.youngest),
        Some(asked) => match up_to(opened.youngest, asked) {
            Some(rev) => Ok(rev),
            None => Err(Fault::Request(RequestFault::NoRev {
                asked,
                youngest: opened.youngest,
            })),
        },
    }
}

// Prints of a revision what is looked at.
fn print_look<B: RevProps, O: Sink>(
    alloc: Global,
    book: &mut B,
    rev: RevNum,
    printed: &Printed,
    out: &mut O,
) -> Result<(), LookError>
    ensures told { (bytes : AllBytes) → KnowsAll (B.told book.old) (B.may_read book.old) rev bytes → Writes (TextOf printed.now bytes rev) (O.written out.old) (O.written out.new) result }
    ensures kept { Keeps (B.told book.old) (B.told book.new) }
    ensures cause { HasDiskCause (B.faults book.old) (B.faults book.new) result }
    ensures sink { HasSinkCause (O.faults out.old) (O.faults out.new) result }
{
    match printed {
        Printed::Tree { show_ids, path } => tree_text(alloc, book, rev, path, *show_ids, out),
        Printed::Text { path } => cat(alloc, book, rev, path, out),
        Printed::Author => author(alloc, book, rev, out),
        Printed::Date => date(alloc, book, rev, out),
        Printed::Log => log(alloc, book, rev, out),
        Printed::Info => info(alloc, book, rev, out),
        Printed::Changed => changed_text(alloc, book, rev, out),
        Printed::History { path } => history_text(alloc, book, rev, path, out),
    }
}

// The fault of a look that was refused, at this path or at `/`.
fn fault_below(alloc: Global, path: Option<&FsPath>, fault: LookFault) -> Fault
    ensures { IsFromLook (unwrap_or (option_map (λ path. path.now) path.entry) []) fault result }
{
    match path {
        Some(path) => Fault::of_look(alloc, path, fault),
        None => Fault::of_look(alloc, &FsPath::root(alloc), fault),
    }
}

// The fault of what ended so, at this path or at `/`.
fn fault_of_error(alloc: Global, path: Option<&FsPath>, error: LookError) -> Fault
    ensures { IsFaultAt (unwrap_or (option_map (λ path. path.now) path.entry) []) error result }
{
    match error {
        LookError::OutOfMemory => Fault::Memory,
        LookError::DiskFault => Fault::Outside(OutsideFault::Disk(DiskPlace::Read)),
        LookError::WriteFault => Fault::Outside(OutsideFault::Write),
        LookError::Fault(fault) => fault_below(alloc, path, fault),
    }
}

// The fault of a look that ended so.
fn fault_at(alloc: Global, printed: &Printed, error: LookError) -> Fault
    ensures { IsFaultAt (printed_path printed.now) error result }
{
    fault_of_error(alloc, printed.path(), error)
}

// The fault of a dump or a check that ended so.
pub(crate) fn fault_of_all(alloc: Global, error: LookError) -> Fault
    ensures { IsFaultAt [] error result }
{
    fault_of_error(alloc, None, error)
}

// Prints all revisions of an opened repository, and gives its disk back.
fn dump_into<T: Threads, D: Disk, O: Sink, G: Gate>(
    rt: &T,
    alloc: Global,
    disk: D,
    opened: &Opened,
    out: &mut O,
    gate: &G,
) -> (D, Result<(), Fault>)
    requires { IfSome (option_map files_now (D.trace disk)) (λ m. IsOpened (small_texts m) opened.now) }
    ensures printed { LooksInto (Rose (D.faults disk) (D.faults result.0)) Dump opened.now (option_map files_now (D.trace disk)) (sink_scene O.Sink out.old) (sink_scene O.Sink out.new) (fault_of result.1) }
    ensures same { D.trace result.0 ≡ D.trace disk }
    ensures mounted { D.mount_path result.0 ≡ D.mount_path disk }
    ensures later { D.faults disk ≤ D.faults result.0 }
{
    let mut book = over_disk(
        alloc,
        disk,
        opened.youngest,
        opened.layout,
        opened.min_unpacked_rev,
    );
    let dumped = dump(
        rt,
        alloc,
        &mut book,
        opened.uuid.as_bytes(),
        opened.youngest,
        out,
        gate,
    );
    let disk = disk_of(book);
    match dumped {
        Ok(()) => (disk, Ok(())),
        Err(error) => (disk, Err(fault_of_all(alloc, error))),
    }
}

// Checks all revisions of an opened repository, and gives its disk back.
fn verify_into<T: Threads, D: Disk, O: Sink>(
    rt: &T,
    alloc: Global,
    disk: D,
    opened: &Opened,
    out: &mut O,
) -> (D, Result<(), Fault>)
    requires { IfSome (option_map files_now (D.trace disk)) (λ m. IsOpened (small_texts m) opened.now) }
    ensures printed { LooksInto (Rose (D.faults disk) (D.faults result.0)) Verify opened.now (option_map files_now (D.trace disk)) (sink_scene O.Sink out.old) (sink_scene O.Sink out.new) (fault_of result.1) }
    ensures same { D.trace result.0 ≡ D.trace disk }
    ensures mounted { D.mount_path result.0 ≡ D.mount_path disk }
    ensures later { D.faults disk ≤ D.faults result.0 }
{
    let mut book = over_disk(
        alloc,
        disk,
        opened.youngest,
        opened.layout,
        opened.min_unpacked_rev,
    );
    let verified = verify(rt, alloc, &mut book, opened.youngest, out);
    let disk = disk_of(book);
    match verified {
        Ok(()) => (disk, Ok(())),
        Err(error) => (disk, Err(fault_of_all(alloc, error))),
    }
}

// Prints a revision of an opened repository, and gives its disk back.
fn look_at_revision<D: Disk, O: Sink>(
    alloc: Global,
    disk: D,
    opened: &Opened,
    look: &RevisionLook,
    out: &mut O,
) -> (D, Result<(), Fault>)
    requires { IfSome (option_map files_now (D.trace disk)) (λ m. IsOpened (small_texts m) opened.now) }
    ensures printed { LooksInto (Rose (D.faults disk) (D.faults result.0)) (AtRevision look.now) opened.now (option_map files_now (D.trace disk)) (sink_scene O.Sink out.old) (sink_scene O.Sink out.new) (fault_of result.1) }
    ensures same { D.trace result.0 ≡ D.trace disk }
    ensures mounted { D.mount_path result.0 ≡ D.mount_path disk }
    ensures later { D.faults disk ≤ D.faults result.0 }
{
    let rev = match revision_of(look, opened) {
        Ok(rev) => rev,
        Err(fault) => return (disk, Err(fault)),
    };
    let mut book = over_disk(
        alloc,
        disk,
        opened.youngest,
        opened.layout,
        opened.min_unpacked_rev,
    );
    let printed = print_look(alloc, &mut book, rev, &look.printed, out);
    let disk = disk_of(book);
    match printed {
        Ok(()) => (disk, Ok(())),
        Err(error) => (disk, Err(fault_at(alloc, &look.printed, error))),
    }
}

// Prints of an opened repository what is looked at, and gives its disk back.
fn look_into<T: Threads, D: Disk, O: Sink, G: Gate>(
    rt: &T,
    alloc: Global,
    disk: D,
    opened: &Opened,
    look: &Look,
    out: &mut O,
    gate: &G,
) -> (D, Result<(), Fault>)
    requires { IfSome (option_map files_now (D.trace disk)) (λ m. IsOpened (small_texts m) opened.now) }
    ensures printed { LooksInto (Rose (D.faults disk) (D.faults result.0)) look.now opened.now (option_map files_now (D.trace disk)) (sink_scene O.Sink out.old) (sink_scene O.Sink out.new) (fault_of result.1) }
    ensures same { D.trace result.0 ≡ D.trace disk }
    ensures mounted { D.mount_path result.0 ≡ D.mount_path disk }
    ensures later { D.faults disk ≤ D.faults result.0 }
{
    match look {
        Look::Youngest => (disk, line_fault(print_revision(out, opened.youngest))),
        Look::Uuid => (disk, line_fault(print_uuid(out, &opened.uuid))),
        Look::Dump => dump_into(rt, alloc, disk, opened, out, gate),
        Look::Verify => verify_into(rt, alloc, disk, opened, out),
        Look::AtRevision(look) => look_at_revision(alloc, disk, opened, look, out),
    }
}

/// Mounts a path to read it, and prints what is looked at of the repository there.
pub(crate) fn look_at<T: Threads, H: Host, O: Sink, G: Gate>(
    rt: &T,
    alloc: Global,
    repos: &str,
    look: &Look,
    host: &mut H,
    out: &mut O,
    gate: &G,
) -> Result<(), Fault>
    ensures printed { (input : SourceScene) → PrintsLook repos.now look.now (scene H.Host O.Sink host.old out.old input) (scene H.Host O.Sink host.new out.new input) (fault_of result) }
    ensures decided { LookIsDecided look.now (H.disk_at host.old repos.now) (fault_of result) }
    ensures same { option_map files_now (H.disk_at host.new repos.now) ≡ option_map files_now (H.disk_at host.old repos.now) }
    // All that it does to the disk is to make the names firm.
    ensures ended { FailsAt FirmNames (H.disk_at host.old repos.now) (H.disk_at host.new repos.now) }
    ensures others { (path : List ℕ) → path ≢ repos.now → H.disk_at host.new path ≡ H.disk_at host.old path }
{
    let mut disk = match host.mount(repos, Access::Read) {
        Ok(disk) => disk,
        Err(_) => return Err(Fault::Outside(OutsideFault::Mount)),
    };
    match open(alloc, &mut disk) {
        Ok(opened) => {
            let (disk, looked) = look_into(rt, alloc, disk, &opened, look, out, gate);
            host.unmount(disk);
            looked
        }
        Err(fault) => {
            host.unmount(disk);
            Err(Fault::from(fault))
        }
    }
}
