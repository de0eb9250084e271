//! A job that reads.
ghost use Rattle.std.specs.Prelude.{◌≡◌, false};
ghost use Rattle.fsfs_revision.specs.Told.{RevisionBytes, Knows, Keeps};
ghost use Rattle.fsfs_tree.specs.Answers.{found_at};
ghost use Rattle.fsfs_tree.specs.Nodes.{TreeFunction};
ghost use Rattle.fsfs_revision.specs.Shows.Shown.{Shows};
ghost use Rattle.fsfs_job_run.specs.TextReads.{IsFromLookError, IsNoBench, ReadsSo, HasAnswerCause};
ghost use Rattle.fsfs_job_run.specs.Serial.Jobs.{tells_full};

use crate::reads::text::read_text;
use fsfs_base::{DiskPlace, FsPath, RevNum};
use fsfs_cli::{Fault, OutsideFault};
use fsfs_jobs::JobAnswer;
use fsfs_look::LookError;
use fsfs_revision::Book;
use fsfs_script::ReadJob;
use std::alloc::Global;

// The fault of a look at this path.
fn fault_of(alloc: Global, path: &FsPath, error: LookError) -> Fault
    ensures { IsFromLookError path.now error result }
{
    match error {
        LookError::Fault(fault) => Fault::of_look(alloc, path, fault),
        LookError::OutOfMemory => Fault::Memory,
        LookError::DiskFault => Fault::Outside(OutsideFault::Disk(DiskPlace::Read)),
        // Nothing is written by a reading.
        LookError::WriteFault => Fault::Outside(OutsideFault::Write),
    }
}

/// Does a job that reads, in this revision of a book. Where the bytes show a tree, it is told what stands there.
pub fn read_job<B: Book>(alloc: Global, book: &mut B, rev: RevNum, job: &ReadJob) -> JobAnswer
    ensures told { (look : RevisionBytes) (tree : TreeFunction) → Knows (B.told book.old).revs rev look → Shows look rev tree → ReadsSo job.now rev (found_at tree job.now.path) result }
    ensures kept { Keeps (B.told book.old) (B.told book.new) }
    ensures cause { HasAnswerCause (B.faults book.old) (B.faults book.new) result }
    ensures no_bench { IsNoBench result }
    ensures unfull { tells_full result ≡ false }
{
    match read_text(alloc, book, rev, &job.path) {
        Ok(read) => JobAnswer::Read(read),
        Err(error) => JobAnswer::Stopped {
            line: job.line,
            fault: fault_of(alloc, &job.path, error),
        },
    }
}
