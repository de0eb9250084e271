//! Texts of files, and the files themselves where nothing stands.
ghost use Rattle.std.specs.Prelude.{◌≡◌, None, OnOk, ℕ, ◌≤◌, true, List};
ghost use Rattle.fsfs_revision.specs.Told.{Keeps};
ghost use Rattle.fsfs_script.specs.declared.job_lines.edit.Edit.TheVariants as edits;
ghost use Rattle.fsfs_jobs.specs.JobEdits.Editing.{OverHistories, IsEditing, HasDiskCause, HasBenchCause, IsTextAt, IsTextInNew};
ghost use Rattle.fsfs_tree.specs.Nodes.{TreeFunction};
ghost use Rattle.fsfs_tree.specs.Histories.{AreRevisions};
ghost use Rattle.fsfs_model.specs.declared.flat.mark.Mark.{Mark};
ghost use Rattle.fsfs_revision.specs.Told.{RevisionBytes};
ghost use Rattle.fsfs_draft.specs.Drafts.{ShowTrees};
ghost use Rattle.fsfs_txn.specs.Opened.Knowing.{AreKnown};
ghost use Rattle.fsfs_draft.specs.Walks.{HasKind};
ghost use Rattle.fsfs_txn.specs.Standing.{Stands};

use crate::job_edits::failures::of_failure;
use crate::job_edits::making::make_file;
use crate::job_edits::slice_source::SliceSource;
use crate::job_edits::telling::{file_at, nothing_at, tell_text};
use fsfs_cli::Fault;
use fsfs_revision::Book;
use fsfs_script::PutText;
use fsfs_txn::{Opened, PathOpened, Txn};
use fsfs_txn_nodes::OwnTexts;
use std::alloc::Global;

// Puts the text at what was opened.
fn put_at<N: OwnTexts>(
    alloc: Global,
    txn: &mut Txn<N>,
    opened: &Opened,
    put: &PutText,
) -> Result<(), Fault>
    requires lasting { txn.old.spent ≡ None }
    requires fresh { opened.now.moves ≡ txn.old.moves }
    requires path { opened.now.way.path ≡ put.now.path }
    ensures puts { ((x : N) → N.tells x ≡ true) → (look : RevisionBytes) (trees : ℕ → TreeFunction) (top : ℕ) (tree : TreeFunction) (marks : List Mark) → AreKnown look top opened.now.way.known.items → ShowTrees look top trees → AreRevisions trees top → txn.old.base ≤ top
        → Stands look trees top txn.old.base (N.txn txn.old.own) (N.settled txn.old.own) tree marks → HasKind (tree put.now.path) opened.now.kind → IsTextAt look trees top txn.old.base (N.txn txn.old.own) tree marks opened.now.counted put.now (N.settled txn.new.own) result }
    ensures lasts { OnOk result (txn.new.spent ≡ None) }
    ensures base { txn.new.base ≡ txn.old.base }
    ensures name { N.txn txn.new.own ≡ N.txn txn.old.own }
    ensures quiet { (faults : ℕ) → HasDiskCause faults faults result }
    ensures bench { HasBenchCause (N.faults txn.old.own) (N.faults txn.new.own) result }
{
    let mut source = SliceSource::new(put.text.as_slice());
    let outcome = txn.put_text(alloc, opened, &mut source, None);
    tell_text(&put.path, outcome)
}

// Opens the file that was just made, and puts the text.
fn put_in_made<B: Book, N: OwnTexts>(
    alloc: Global,
    book: &mut B,
    txn: &mut Txn<N>,
    put: &PutText,
) -> Result<(), Fault>
    requires lasting { txn.old.spent ≡ None }
    ensures puts { ((x : N) → N.tells x ≡ true) → OverHistories (B.told book.old).revs (B.told book.old).youngest txn.old.base (N.txn txn.old.own) (N.settled txn.old.own) (IsTextInNew put.now (N.txn txn.old.own) txn.old.base (N.settled txn.new.own) result) }
    ensures lasts { OnOk result (txn.new.spent ≡ None) }
    ensures base { txn.new.base ≡ txn.old.base }
    ensures name { N.txn txn.new.own ≡ N.txn txn.old.own }
    ensures kept { Keeps (B.told book.old) (B.told book.new) }
    ensures disk { HasDiskCause (B.faults book.old) (B.faults book.new) result }
    ensures bench { HasBenchCause (N.faults txn.old.own) (N.faults txn.new.own) result }
{
    match txn.open_path(alloc, book, &put.path) {
        Ok(PathOpened::Node(opened)) => put_at(alloc, txn, &opened, put),
        Ok(PathOpened::NotFound(names)) => Err(nothing_at(alloc, &put.path, names)),
        Ok(PathOpened::NotDir(names)) => Err(file_at(alloc, &put.path, names)),
        Err(error) => Err(of_failure(error)),
    }
}

// Makes the file first: nothing stands there.
fn put_new<B: Book, N: OwnTexts>(
    alloc: Global,
    book: &mut B,
    txn: &mut Txn<N>,
    put: &PutText,
) -> Result<(), Fault>
    requires lasting { txn.old.spent ≡ None }
    ensures edits { ((x : N) → N.tells x ≡ true) → OverHistories (B.told book.old).revs (B.told book.old).youngest txn.old.base (N.txn txn.old.own) (N.settled txn.old.own) (λ look trees top tree marks. tree put.now.path ≡ None → IsEditing (edits.Put put.now) (N.txn txn.old.own) txn.old.base (N.settled txn.new.own) result look trees top tree marks) }
    ensures lasts { OnOk result (txn.new.spent ≡ None) }
    ensures base { txn.new.base ≡ txn.old.base }
    ensures name { N.txn txn.new.own ≡ N.txn txn.old.own }
    ensures kept { Keeps (B.told book.old) (B.told book.new) }
    ensures disk { HasDiskCause (B.faults book.old) (B.faults book.new) result }
    ensures bench { HasBenchCause (N.faults txn.old.own) (N.faults txn.new.own) result }
{
    make_file(alloc, book, txn, &put.path)?;
    put_in_made(alloc, book, txn, put)
}

/// Puts a text at a path; where nothing stands there, the file is made first.
pub(crate) fn put<B: Book, N: OwnTexts>(
    alloc: Global,
    book: &mut B,
    txn: &mut Txn<N>,
    put: &PutText,
) -> Result<(), Fault>
    requires lasting { txn.old.spent ≡ None }
    ensures edits { ((x : N) → N.tells x ≡ true) → OverHistories (B.told book.old).revs (B.told book.old).youngest txn.old.base (N.txn txn.old.own) (N.settled txn.old.own) (IsEditing (edits.Put put.now) (N.txn txn.old.own) txn.old.base (N.settled txn.new.own) result) }
    ensures lasts { OnOk result (txn.new.spent ≡ None) }
    ensures base { txn.new.base ≡ txn.old.base }
    ensures name { N.txn txn.new.own ≡ N.txn txn.old.own }
    ensures kept { Keeps (B.told book.old) (B.told book.new) }
    ensures disk { HasDiskCause (B.faults book.old) (B.faults book.new) result }
    ensures bench { HasBenchCause (N.faults txn.old.own) (N.faults txn.new.own) result }
{
    match txn.open_path(alloc, book, &put.path) {
        Ok(PathOpened::Node(opened)) => put_at(alloc, txn, &opened, put),
        Ok(PathOpened::NotFound(_)) => put_new(alloc, book, txn, put),
        Ok(PathOpened::NotDir(_)) => put_new(alloc, book, txn, put),
        Err(error) => Err(of_failure(error)),
    }
}
