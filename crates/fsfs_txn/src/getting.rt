//! What stands at a path.
ghost use Rattle.std.specs.Prelude.{◌≡◌, ℕ, None};
ghost use Rattle.fsfs_base.specs.declared.fields.txn_name.TxnName.{TxnName};
ghost use Rattle.fsfs_revision.specs.Told.{Keeps};
ghost use Rattle.fsfs_draft.specs.Drafts.{Folder};
ghost use Rattle.fsfs_draft.specs.Causes as causes;
ghost use Rattle.fsfs_txn.specs.Spending.{IsSpentAfter, StaysSpent, HasDiskCause, HasBenchCause};
ghost use Rattle.fsfs_txn.specs.Getting.{ReadsProps, Gets, MeetsGetting};
ghost use Rattle.fsfs_txn.specs.GettingTexts.{GetsText, MeetsGettingText};

use crate::node_texts::text_of;
use crate::txn::Txn;
use crate::txn_error::TxnError;
use fsfs_base::{FsPath, Kind, Pairs};
use fsfs_dag::{PlacedNode, props};
use fsfs_draft::{EditError, Found, Own, Step, met, properties_in, root_id};
use fsfs_noderev::{NodeId, Rep};
use fsfs_revision::Book;
use std::alloc::Global;

/// What stands at a path.
#[derive(Drop)]
pub struct NodeView {
    pub kind: Kind,
    pub props: Pairs,
    /// The representation of its text; none: it has no byte.
    pub text: Option<Rep>,
}

/// What stands at a path, or why nothing does.
#[derive(Drop)]
pub enum Got {
    Node(NodeView),
    /// So many names of the path lead to nothing.
    NotFound(usize),
    /// So many names of the path lead to a file, and more follow.
    NotDir(usize),
}

// The properties of an own node-revision.
fn own_props<B: Book, N: Own>(
    alloc: Global,
    book: &mut B,
    own: &N,
    id: &NodeId,
) -> Result<Pairs, EditError>
    ensures told { ReadsProps (B.told book.old).revs (N.txn own.now) (N.folder own.now) (Step.Own id.now) result }
    ensures kept { Keeps (B.told book.old) (B.told book.new) }
    ensures cause { causes.HasDiskCause (B.faults book.old) (B.faults book.new) result }
    ensures bench { causes.HasBenchCause (N.faults own.now) (N.faults own.now) result }
{
    let Some(kept) = own.kept(id) else {
        return Err(EditError::Lacking);
    };
    match properties_in(alloc, book, kept) {
        Ok(pairs) => Ok(pairs),
        Err(error) => Err(EditError::from(error)),
    }
}

// The properties of a node-revision of a revision.
fn lasting_props<B: Book>(
    alloc: Global,
    book: &mut B,
    found: &PlacedNode,
) -> Result<Pairs, EditError>
    ensures told { (txn : TxnName) (folder : Folder) → ReadsProps (B.told book.old).revs txn folder (Step.Lasting found.now) result }
    ensures kept { Keeps (B.told book.old) (B.told book.new) }
    ensures cause { causes.HasDiskCause (B.faults book.old) (B.faults book.new) result }
    ensures quiet { (faults : ℕ) → causes.HasBenchCause faults faults result }
{
    match props(alloc, book, found) {
        Ok(pairs) => Ok(pairs),
        Err(error) => Err(EditError::from(error)),
    }
}

// The properties of what a walk came to.
fn props_of<B: Book, N: Own>(
    alloc: Global,
    book: &mut B,
    own: &N,
    step: &Step,
) -> Result<Pairs, EditError>
    ensures told { ReadsProps (B.told book.old).revs (N.txn own.now) (N.folder own.now) step.now result }
    ensures kept { Keeps (B.told book.old) (B.told book.new) }
    ensures cause { causes.HasDiskCause (B.faults book.old) (B.faults book.new) result }
    ensures bench { causes.HasBenchCause (N.faults own.now) (N.faults own.now) result }
{
    match step {
        Step::Own(id) => own_props(alloc, book, own, id),
        Step::Lasting(found) => lasting_props(alloc, book, found),
    }
}

// What stands at a path.
fn got_at<B: Book, N: Own>(
    alloc: Global,
    book: &mut B,
    own: &N,
    path: &FsPath,
) -> Result<Got, EditError>
    ensures gets { Gets (B.told book.old).revs (N.txn own.now) (N.folder own.now) path.now result }
    ensures text { GetsText (B.told book.old).revs (N.txn own.now) (N.folder own.now) path.now result }
    ensures kept { Keeps (B.told book.old) (B.told book.new) }
    ensures cause { causes.HasDiskCause (B.faults book.old) (B.faults book.new) result }
    ensures bench { causes.HasBenchCause (N.faults own.now) (N.faults own.now) result }
{
    let root = root_id(own.name());
    match met(alloc, book, own, &root, path)? {
        Found::Absent(depth) => Ok(Got::NotFound(depth)),
        Found::File(depth) => Ok(Got::NotDir(depth)),
        Found::Node(child) => {
            let props = props_of(alloc, book, own, &child.step)?;
            let text = text_of(own, &child.step)?;
            Ok(Got::Node(NodeView {
                kind: child.kind,
                props,
                text,
            }))
        }
    }
}

// What stands at a path. What an earlier failure left unsettled is forgotten first.
fn got_settled<B: Book, N: Own>(
    alloc: Global,
    book: &mut B,
    own: &mut N,
    path: &FsPath,
) -> Result<Got, EditError>
    ensures gets { Gets (B.told book.old).revs (N.txn own.old) (N.settled own.old) path.now result }
    ensures text { GetsText (B.told book.old).revs (N.txn own.old) (N.settled own.old) path.now result }
    ensures settled { N.settled own.new ≡ N.settled own.old }
    ensures name { N.txn own.new ≡ N.txn own.old }
    ensures bench { causes.HasBenchCause (N.faults own.old) (N.faults own.new) result }
    ensures kept { Keeps (B.told book.old) (B.told book.new) }
    ensures cause { causes.HasDiskCause (B.faults book.old) (B.faults book.new) result }
{
    own.forget();
    got_at(alloc, book, own, path)
}

impl<N: Own> Txn<N> {
    /// What stands at a path of the transaction's tree, with its properties and its text, or that the path leads to nothing. Nothing is
    /// changed; a failure of the bench spends the transaction.
    pub fn get<B: Book>(
        &mut self,
        alloc: Global,
        book: &mut B,
        path: &FsPath,
    ) -> Result<Got, TxnError>
        ensures meets { self.old.spent ≡ None → MeetsGetting (B.told book.old).revs self.old.base (N.txn self.old.own) (N.settled self.old.own) path.now result }
        ensures text { self.old.spent ≡ None → MeetsGettingText (B.told book.old).revs self.old.base (N.txn self.old.own) (N.settled self.old.own) path.now result }
        ensures settled { N.settled self.new.own ≡ N.settled self.old.own }
        ensures stays { StaysSpent self.old.spent result (self.new ≡ self.old) }
        ensures spent { IsSpentAfter self.old.spent self.new.spent result }
        ensures moves { self.new.moves ≡ self.old.moves }
        ensures base { self.new.base ≡ self.old.base }
        ensures name { N.txn self.new.own ≡ N.txn self.old.own }
        ensures bench { HasBenchCause (N.faults self.old.own) (N.faults self.new.own) result }
        ensures kept { Keeps (B.told book.old) (B.told book.new) }
        ensures cause { HasDiskCause (B.faults book.old) (B.faults book.new) result }
    {
        if let Some(first) = self.spent {
            return Err(TxnError::Spent { first });
        }
        match got_settled(alloc, book, &mut self.own, path) {
            Ok(got) => Ok(got),
            Err(error) => Err(self.failed(error)),
        }
    }
}
