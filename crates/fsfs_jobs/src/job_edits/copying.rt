//! Copies.
ghost use Rattle.std.specs.Prelude.{◌≡◌, ◌≤◌, None, OnOk, ◌<◌, ℕ, Some, IfOk, Err};
ghost use Rattle.fsfs_revision.specs.Told.{Keeps};
ghost use Rattle.fsfs_script.specs.declared.job_lines.edit.Edit.TheVariants as edits;
ghost use Rattle.fsfs_jobs.specs.JobEdits.Editing.{OverHistories, IsEditing, IsNoRev, HasDiskCause, HasBenchCause};
ghost use Rattle.fsfs_base.specs.Fields.RevNums.{last_rev};

use crate::job_edits::failures::of_failure;
use crate::job_edits::telling::{file_at, is_there, nothing_at, tell_copied};
use fsfs_base::{DiskPlace, RevNum};
use fsfs_cli::{Fault, OutsideFault, RequestFault};
use fsfs_noderev::CopySource;
use fsfs_revision::Book;
use fsfs_script::CopyFrom;
use fsfs_txn::{PathOpened, Txn};
use fsfs_txn_nodes::OwnFiles;
use std::alloc::{AllocError, Global};

// There is no such revision.
fn lacks_revision<B: Book>(book: &mut B, asked: u64) -> Fault
    ensures lacks { (top : ℕ) → (B.told book.old).youngest ≡ Some top → IsNoRev asked top result }
    ensures kept { Keeps (B.told book.old) (B.told book.new) }
    ensures disk { HasDiskCause (B.faults book.old) (B.faults book.new) (Err result) }
    ensures quiet { (before now : ℕ) → before ≤ now → HasBenchCause before now (Err result) }
{
    match book.youngest() {
        Ok(youngest) => Fault::Request(RequestFault::NoRev { asked, youngest }),
        Err(_) => Fault::Outside(OutsideFault::Disk(DiskPlace::Read)),
    }
}

// A copy of a revision whose number is above all: what stands in the way of the target comes first.
fn copy_of_none<B: Book, N: OwnFiles>(
    alloc: Global,
    book: &mut B,
    txn: &mut Txn<N>,
    copy: &CopyFrom,
) -> Result<(), Fault>
    requires above { last_rev < copy.now.rev }
    requires lasting { txn.old.spent ≡ None }
    ensures edits { OverHistories (B.told book.old).revs (B.told book.old).youngest txn.old.base (N.txn txn.old.own) (N.settled txn.old.own) (IsEditing (edits.Copy copy.now) (N.txn txn.old.own) txn.old.base (N.settled txn.new.own) result) }
    ensures lasts { OnOk result (txn.new.spent ≡ None) }
    ensures base { txn.new.base ≡ txn.old.base }
    ensures name { N.txn txn.new.own ≡ N.txn txn.old.own }
    ensures kept { Keeps (B.told book.old) (B.told book.new) }
    ensures disk { HasDiskCause (B.faults book.old) (B.faults book.new) result }
    ensures bench { HasBenchCause (N.faults txn.old.own) (N.faults txn.new.own) result }
{
    match txn.open_path(alloc, book, &copy.to) {
        Ok(PathOpened::Node(_)) => Err(is_there(&copy.to)),
        Ok(PathOpened::NotFound(names)) => {
            if names < copy.to.depth() {
                return Err(nothing_at(alloc, &copy.to, names));
            }
            Err(lacks_revision(book, copy.rev))
        }
        Ok(PathOpened::NotDir(names)) => Err(file_at(alloc, &copy.to, names)),
        Err(error) => Err(of_failure(error)),
    }
}

// The source of a copy, of a revision of this number.
fn source_of(copy: &CopyFrom, rev: RevNum) -> Result<CopySource, AllocError>
    ensures { IfOk result (λ from. from ≡ record { rev = rev; path = copy.now.from }) }
{
    Ok(CopySource {
        rev,
        path: copy.from.clone()?,
    })
}

// A copy of a revision of this number.
fn copy_of<B: Book, N: OwnFiles>(
    alloc: Global,
    book: &mut B,
    txn: &mut Txn<N>,
    copy: &CopyFrom,
    rev: RevNum,
) -> Result<(), Fault>
    requires number { rev ≡ copy.now.rev }
    requires lasting { txn.old.spent ≡ None }
    ensures edits { OverHistories (B.told book.old).revs (B.told book.old).youngest txn.old.base (N.txn txn.old.own) (N.settled txn.old.own) (IsEditing (edits.Copy copy.now) (N.txn txn.old.own) txn.old.base (N.settled txn.new.own) result) }
    ensures lasts { OnOk result (txn.new.spent ≡ None) }
    ensures base { txn.new.base ≡ txn.old.base }
    ensures name { N.txn txn.new.own ≡ N.txn txn.old.own }
    ensures kept { Keeps (B.told book.old) (B.told book.new) }
    ensures disk { HasDiskCause (B.faults book.old) (B.faults book.new) result }
    ensures bench { HasBenchCause (N.faults txn.old.own) (N.faults txn.new.own) result }
{
    let Ok(from) = source_of(copy, rev) else {
        return Err(Fault::Memory);
    };
    let outcome = txn.copy(alloc, book, &from, &copy.to);
    tell_copied(alloc, copy, outcome)
}

/// Puts a copy of what stands at a path of a revision at another path.
pub(crate) fn copy<B: Book, N: OwnFiles>(
    alloc: Global,
    book: &mut B,
    txn: &mut Txn<N>,
    copy: &CopyFrom,
) -> Result<(), Fault>
    requires lasting { txn.old.spent ≡ None }
    ensures edits { OverHistories (B.told book.old).revs (B.told book.old).youngest txn.old.base (N.txn txn.old.own) (N.settled txn.old.own) (IsEditing (edits.Copy copy.now) (N.txn txn.old.own) txn.old.base (N.settled txn.new.own) result) }
    ensures lasts { OnOk result (txn.new.spent ≡ None) }
    ensures base { txn.new.base ≡ txn.old.base }
    ensures name { N.txn txn.new.own ≡ N.txn txn.old.own }
    ensures kept { Keeps (B.told book.old) (B.told book.new) }
    ensures disk { HasDiskCause (B.faults book.old) (B.faults book.new) result }
    ensures bench { HasBenchCause (N.faults txn.old.own) (N.faults txn.new.own) result }
{
    match RevNum::new(copy.rev) {
        None => copy_of_none(alloc, book, txn, copy),
        Some(rev) => copy_of(alloc, book, txn, copy, rev),
    }
}
