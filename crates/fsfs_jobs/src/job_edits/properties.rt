//! Properties that are set or taken away.
ghost use Rattle.std.specs.Prelude.{◌≡◌, None, OnOk, ℕ, ◌≤◌, List, IfOk};
ghost use Rattle.fsfs_revision.specs.Told.{Keeps};
ghost use Rattle.fsfs_script.specs.declared.job_lines.edit.Edit.TheVariants as edits;
ghost use Rattle.fsfs_jobs.specs.JobEdits.Editing.{OverHistories, IsEditing, HasDiskCause, HasBenchCause, IsSetAt};
ghost use Rattle.fsfs_tree.specs.Nodes.{TreeFunction};
ghost use Rattle.fsfs_tree.specs.Histories.{AreRevisions};
ghost use Rattle.fsfs_model.specs.Flat.Edits.{bytes_of};
ghost use Rattle.fsfs_model.specs.declared.flat.mark.Mark.{Mark};
ghost use Rattle.fsfs_revision.specs.Told.{RevisionBytes};
ghost use Rattle.fsfs_draft.specs.Drafts.{ShowTrees};
ghost use Rattle.fsfs_txn.specs.Opened.Knowing.{AreKnown};
ghost use Rattle.fsfs_txn.specs.Standing.{Stands};

use crate::job_edits::failures::of_failure;
use crate::job_edits::telling::{file_at, nothing_at, tell_property};
use fsfs_cli::Fault;
use fsfs_revision::Book;
use fsfs_script::{SetProp, Text};
use fsfs_txn::{Opened, PathOpened, Txn};
use fsfs_txn_nodes::OwnFiles;
use std::alloc::{AllocError, Global};

// A value of its own.
fn value_of(alloc: Global, value: &Option<Text>) -> Result<Option<Vec<u8>>, AllocError>
    ensures { IfOk result (λ v. bytes_of v ≡ value.now) }
{
    match value {
        None => Ok(None),
        Some(text) => {
            let mut bytes = Vec::new(alloc);
            bytes.extend_from_slice(text.as_slice())?;
            Ok(Some(bytes))
        }
    }
}

// Sets the property of what was opened, or takes it away.
fn set_at<N: OwnFiles>(
    alloc: Global,
    txn: &mut Txn<N>,
    opened: &Opened,
    set: &SetProp,
) -> Result<(), Fault>
    requires lasting { txn.old.spent ≡ None }
    requires fresh { opened.now.moves ≡ txn.old.moves }
    requires path { opened.now.way.path ≡ set.now.path }
    ensures sets { (look : RevisionBytes) (trees : ℕ → TreeFunction) (top : ℕ) (tree : TreeFunction) (marks : List Mark) → AreKnown look top opened.now.way.known.items → ShowTrees look top trees → AreRevisions trees top → txn.old.base ≤ top
        → Stands look trees top txn.old.base (N.txn txn.old.own) (N.settled txn.old.own) tree marks → IsSetAt look trees top txn.old.base (N.txn txn.old.own) tree marks opened.now.counted set.now (N.settled txn.new.own) result }
    ensures lasts { OnOk result (txn.new.spent ≡ None) }
    ensures base { txn.new.base ≡ txn.old.base }
    ensures name { N.txn txn.new.own ≡ N.txn txn.old.own }
    ensures quiet { (faults : ℕ) → HasDiskCause faults faults result }
    ensures bench { HasBenchCause (N.faults txn.old.own) (N.faults txn.new.own) result }
{
    let Ok(value) = value_of(alloc, &set.value) else {
        return Err(Fault::Memory);
    };
    let outcome = txn.set_prop(alloc, opened, &set.name, value);
    tell_property(&set.path, outcome)
}

/// Sets a property of what stands at a path, or takes it away.
pub(crate) fn set_prop<B: Book, N: OwnFiles>(
    alloc: Global,
    book: &mut B,
    txn: &mut Txn<N>,
    set: &SetProp,
) -> Result<(), Fault>
    requires lasting { txn.old.spent ≡ None }
    ensures edits { OverHistories (B.told book.old).revs (B.told book.old).youngest txn.old.base (N.txn txn.old.own) (N.settled txn.old.own) (IsEditing (edits.Prop set.now) (N.txn txn.old.own) txn.old.base (N.settled txn.new.own) result) }
    ensures lasts { OnOk result (txn.new.spent ≡ None) }
    ensures base { txn.new.base ≡ txn.old.base }
    ensures name { N.txn txn.new.own ≡ N.txn txn.old.own }
    ensures kept { Keeps (B.told book.old) (B.told book.new) }
    ensures disk { HasDiskCause (B.faults book.old) (B.faults book.new) result }
    ensures bench { HasBenchCause (N.faults txn.old.own) (N.faults txn.new.own) result }
{
    match txn.open_path(alloc, book, &set.path) {
        Ok(PathOpened::Node(opened)) => set_at(alloc, txn, &opened, set),
        Ok(PathOpened::NotFound(names)) => Err(nothing_at(alloc, &set.path, names)),
        Ok(PathOpened::NotDir(names)) => Err(file_at(alloc, &set.path, names)),
        Err(error) => Err(of_failure(error)),
    }
}
