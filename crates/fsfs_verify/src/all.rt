//! All revisions of a repository.
ghost use Rattle.fsfs_look.specs.Written.{Writes, HasDiskCause, HasSinkCause};
ghost use Rattle.fsfs_revision.specs.RevProps.{ReadsOnly};
ghost use Rattle.fsfs_revision.specs.Told.{RevisionBytes, Knows, Keeps};
ghost use Rattle.fsfs_verify.specs.Texts.{VerifyText};

use crate::lines::write_verified;
use crate::parts::Parts;
use crate::revision::check_revision;
use fsfs_base::{RevNum, Sink};
use fsfs_look::LookError;
use fsfs_revision::StillProps;
use std::alloc::Global;
use std::thread::Threads;

/// Checks all revisions up to the youngest, from 0 on, and writes a line of each as soon as it was verified. `Ok` comes only where
/// they show a history no text of which is a delta. What is refused is wrong with the first revision of which no line was
/// written, and those before it show a history.
pub fn verify<R: Threads, B: StillProps, S: Sink>(
    rt: &R,
    alloc: Global,
    book: &mut B,
    youngest: RevNum,
    sink: &mut S,
) -> Result<(), LookError>
    ensures told { (look props : RevisionBytes) → Knows (B.told book.old).revs youngest look → ReadsOnly (B.may_read book.old) youngest props → Writes (VerifyText look props youngest) (S.written sink.old) (S.written sink.new) result }
    ensures kept { Keeps (B.told book.old) (B.told book.new) }
    ensures cause { HasDiskCause (B.faults book.old) (B.faults book.new) result }
    ensures sink { HasSinkCause (S.faults sink.old) (S.faults sink.new) result }
{
    let mut parts = Parts::new(alloc);
    let mut last = None;
    let count = u64::from(youngest.get()) + 1;
    let mut next: u64 = 0;
    'revisions: while next < count {
        let Some(rev) = RevNum::new(next) else {
            unreachable!()
        };
        let root = check_revision(rt, alloc, book, rev, &mut parts, last.as_ref())?;
        last = Some(root);
        write_verified(sink, rev)?;
        next += 1;
    }
    Ok(())
}
