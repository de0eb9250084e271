//! The edits of a job one after another.
ghost use Rattle.std.specs.Prelude.{◌≡◌, None, OnOk, true};
ghost use Rattle.fsfs_revision.specs.Told.{Keeps};
ghost use Rattle.fsfs_base.specs.Counts.{HasCause};
ghost use Rattle.fsfs_jobs.specs.JobEdits.Editing.{OverHistories, IsEditing, HasDiskCause, HasBenchCause, AreEditing, IfDisk, IfBench, IfStopped};

use crate::job_edits::copying::copy;
use crate::job_edits::deleting::delete;
use crate::job_edits::making::{make_dir, make_file};
use crate::job_edits::properties::set_prop;
use crate::job_edits::texts::put;
use fsfs_cli::Fault;
use fsfs_revision::Book;
use fsfs_script::{Edit, Step};
use fsfs_txn::Txn;
use fsfs_txn_nodes::OwnTexts;
use std::alloc::Global;

/// The first edit that was not done.
#[derive(Drop)]
pub struct Stopped {
    /// The line on which it began.
    pub line: u64,
    pub fault: Fault,
}

/// Does an edit of a job in a transaction that is not spent. What is not done is told: by the trees as in the rows of `Refuses`, or
/// for counts of mergeinfo that would have to change.
pub fn do_edit<B: Book, N: OwnTexts>(
    alloc: Global,
    book: &mut B,
    txn: &mut Txn<N>,
    edit: &Edit,
) -> Result<(), Fault>
    requires lasting { txn.old.spent ≡ None }
    ensures edits { ((x : N) → N.tells x ≡ true) → OverHistories (B.told book.old).revs (B.told book.old).youngest txn.old.base (N.txn txn.old.own) (N.settled txn.old.own) (IsEditing edit.now (N.txn txn.old.own) txn.old.base (N.settled txn.new.own) result) }
    ensures lasts { OnOk result (txn.new.spent ≡ None) }
    ensures base { txn.new.base ≡ txn.old.base }
    ensures name { N.txn txn.new.own ≡ N.txn txn.old.own }
    ensures kept { Keeps (B.told book.old) (B.told book.new) }
    ensures disk { HasDiskCause (B.faults book.old) (B.faults book.new) result }
    ensures bench { HasBenchCause (N.faults txn.old.own) (N.faults txn.new.own) result }
{
    match edit {
        Edit::MakeDir(path) => make_dir(alloc, book, txn, path),
        Edit::MakeFile(path) => make_file(alloc, book, txn, path),
        Edit::Delete(path) => delete(alloc, book, txn, path),
        Edit::Copy(from) => copy(alloc, book, txn, from),
        Edit::Put(text) => put(alloc, book, txn, text),
        Edit::Prop(set) => set_prop(alloc, book, txn, set),
    }
}

/// Does the edits of a job in a transaction that is not spent, up to the first that is not done. What the transaction stands for then
/// is not told.
pub fn do_edits<B: Book, N: OwnTexts>(
    alloc: Global,
    book: &mut B,
    txn: &mut Txn<N>,
    steps: &[Step],
) -> Result<(), Stopped>
    requires lasting { txn.old.spent ≡ None }
    ensures edits { ((x : N) → N.tells x ≡ true) → OverHistories (B.told book.old).revs (B.told book.old).youngest txn.old.base (N.txn txn.old.own) (N.settled txn.old.own) (AreEditing steps.now (N.txn txn.old.own) txn.old.base (N.settled txn.new.own) result) }
    ensures lasts { OnOk result (txn.new.spent ≡ None) }
    ensures base { txn.new.base ≡ txn.old.base }
    ensures name { N.txn txn.new.own ≡ N.txn txn.old.own }
    ensures kept { Keeps (B.told book.old) (B.told book.new) }
    ensures disk { HasCause (IfStopped IfDisk) (B.faults book.old) (B.faults book.new) result }
    ensures bench { HasCause (IfStopped IfBench) (N.faults txn.old.own) (N.faults txn.new.own) result }
{
    for step in steps {
        match do_edit(alloc, book, txn, &step.edit) {
            Ok(()) => {}
            Err(fault) => {
                return Err(Stopped {
                    line: step.line,
                    fault,
                });
            }
        }
    }
    Ok(())
}
