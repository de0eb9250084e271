//! The dump of a repository.
ghost use Rattle.std.specs.Prelude.{◌≡◌, ◌++◌, suc, OnOk};
ghost use Rattle.fsfs_revision.specs.Told.{RevisionBytes, Knows, Keeps};
ghost use Rattle.fsfs_look.specs.Walks.{Walks};
ghost use Rattle.fsfs_look.specs.Written.{Writes, HasDiskCause, HasSinkCause};
ghost use Rattle.fsfs_dump.specs.Records.{dump_head};
ghost use Rattle.fsfs_dump.specs.Texts.{RevisionsText, DumpText};

use crate::revision::write_revision;
use fsfs_base::{Gate, GatePlace, RevNum, Sink};
use fsfs_look::{LookError, write_full, write_last};
use fsfs_revision::StillProps;
use std::alloc::{AllocError, Global};
use std::thread::Threads;

// Puts what stands in front of all revisions.
fn put_front(lines: &mut Vec<u8>, uuid: &[u8]) -> Result<(), AllocError>
    ensures { OnOk result (lines.new.items ≡ lines.old.items ++ dump_head uuid.now) }
{
    lines.extend_from_slice(b"SVN-fs-dump-format-version: 2\n\nUUID: ")?;
    lines.extend_from_slice(uuid)?;
    lines.extend_from_slice(b"\n\n")?;
    Ok(())
}

// Writes all revisions up to the youngest, but for what is kept.
fn write_revisions<R: Threads, B: StillProps, S: Sink, G: Gate>(
    rt: &R,
    alloc: Global,
    book: &mut B,
    youngest: RevNum,
    lines: &mut Vec<u8>,
    sink: &mut S,
    gate: &G,
) -> Result<(), LookError>
    ensures told { (look : RevisionBytes) → Knows (B.told book.old).revs youngest look
        → Walks (RevisionsText look (B.may_read book.old) 0 (suc youngest)) lines.old.items lines.new.items (S.written sink.old) (S.written sink.new) result }
    ensures kept { Keeps (B.told book.old) (B.told book.new) }
    ensures cause { HasDiskCause (B.faults book.old) (B.faults book.new) result }
    ensures sink { HasSinkCause (S.faults sink.old) (S.faults sink.new) result }
{
    let count = youngest.get() as u64 + 1;
    let mut next: u64 = 0;
    'revisions: while next < count {
        let Some(rev) = RevNum::new(next) else {
            unreachable!()
        };
        write_full(sink, lines)?;
        write_revision(rt, alloc, book, rev, lines, sink)?;
        gate.at(GatePlace::AfterJob, next);
        next += 1;
    }
    Ok(())
}

// Writes all of a dump, but for what is kept.
fn write_all<R: Threads, B: StillProps, S: Sink, G: Gate>(
    rt: &R,
    alloc: Global,
    book: &mut B,
    uuid: &[u8],
    youngest: RevNum,
    lines: &mut Vec<u8>,
    sink: &mut S,
    gate: &G,
) -> Result<(), LookError>
    ensures told { (look : RevisionBytes) → Knows (B.told book.old).revs youngest look
        → Walks (DumpText look (B.may_read book.old) uuid.now youngest) lines.old.items lines.new.items (S.written sink.old) (S.written sink.new) result }
    ensures kept { Keeps (B.told book.old) (B.told book.new) }
    ensures cause { HasDiskCause (B.faults book.old) (B.faults book.new) result }
    ensures sink { HasSinkCause (S.faults sink.old) (S.faults sink.new) result }
{
    put_front(lines, uuid)?;
    write_revisions(rt, alloc, book, youngest, lines, sink, gate)
}

/// Writes a dump of all revisions up to the youngest, of a repository of this identifier: Subversion's dumpfile format, version
/// 2, with full texts. Where something is wrong with the bytes, all records before it are written; a text that is a delta is
/// told before a byte of its path's records.
///
/// In memory are the changed-path data of one revision, the properties of one node, and a text of at most 8,192 bytes; a longer one
/// is read twice, since its digests stand in front of it; by the second reading it isn't checked again. Of one longer than 1,048,576
/// bytes a thread takes one of the digests, if the system has a thread to give, and two pieces of so many bytes are in memory.
///
/// Behind each revision the gate is passed with its number (`AfterJob`): it is to a dump what a job is to a script. Up to a piece of
/// what was dumped may not be written yet then.
pub fn dump<R: Threads, B: StillProps, S: Sink, G: Gate>(
    rt: &R,
    alloc: Global,
    book: &mut B,
    uuid: &[u8],
    youngest: RevNum,
    sink: &mut S,
    gate: &G,
) -> Result<(), LookError>
    ensures told { (look : RevisionBytes) → Knows (B.told book.old).revs youngest look → Writes (DumpText look (B.may_read book.old) uuid.now youngest) (S.written sink.old) (S.written sink.new) result }
    ensures kept { Keeps (B.told book.old) (B.told book.new) }
    ensures cause { HasDiskCause (B.faults book.old) (B.faults book.new) result }
    ensures sink { HasSinkCause (S.faults sink.old) (S.faults sink.new) result }
{
    let mut lines = Vec::new(alloc);
    let walked = write_all(rt, alloc, book, uuid, youngest, &mut lines, sink, gate);
    write_last(sink, &mut lines, walked)
}
