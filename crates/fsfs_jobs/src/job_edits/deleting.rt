//! Deletes.
ghost use Rattle.std.specs.Prelude.{◌≡◌, None, OnOk};
ghost use Rattle.fsfs_revision.specs.Told.{Keeps};
ghost use Rattle.fsfs_script.specs.declared.job_lines.edit.Edit.TheVariants as edits;
ghost use Rattle.fsfs_jobs.specs.JobEdits.Editing.{OverHistories, IsEditing, HasDiskCause, HasBenchCause};

use crate::job_edits::telling::tell_deleted;
use fsfs_base::FsPath;
use fsfs_cli::{Fault, RequestFault};
use fsfs_revision::Book;
use fsfs_txn::Txn;
use fsfs_txn_nodes::OwnFiles;
use std::alloc::Global;

/// Takes away what stands at a path, and all below it.
pub(crate) fn delete<B: Book, N: OwnFiles>(
    alloc: Global,
    book: &mut B,
    txn: &mut Txn<N>,
    path: &FsPath,
) -> Result<(), Fault>
    requires lasting { txn.old.spent ≡ None }
    ensures edits { OverHistories (B.told book.old).revs (B.told book.old).youngest txn.old.base (N.txn txn.old.own) (N.settled txn.old.own) (IsEditing (edits.Delete path.now) (N.txn txn.old.own) txn.old.base (N.settled txn.new.own) result) }
    ensures lasts { OnOk result (txn.new.spent ≡ None) }
    ensures base { txn.new.base ≡ txn.old.base }
    ensures name { N.txn txn.new.own ≡ N.txn txn.old.own }
    ensures kept { Keeps (B.told book.old) (B.told book.new) }
    ensures disk { HasDiskCause (B.faults book.old) (B.faults book.new) result }
    ensures bench { HasBenchCause (N.faults txn.old.own) (N.faults txn.new.own) result }
{
    if path.is_root() {
        return Err(Fault::Request(RequestFault::RootFixed));
    }
    let outcome = txn.delete(alloc, book, path);
    tell_deleted(alloc, path, outcome)
}
