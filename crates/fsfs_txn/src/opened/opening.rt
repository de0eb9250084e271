//! The opening of a node: what stands at its path, and what is known of the way to it.
ghost use Rattle.std.specs.Prelude.{◌≡◌, ◌≤◌, ◌++◌, ◌∷◌, [], ℕ, true, false, List, Some, None, Ok, IfOk, IfErr, OnOk, option_map};
ghost use Rattle.fsfs_base.specs.declared.kind.Kind.{Kind as Kinds};
ghost use Rattle.fsfs_revision.specs.Told.{RevisionBytes, Knows, Keeps};
ghost use Rattle.fsfs_draft.specs.Drafts.{Kept, IsDraft, ShowTrees};
ghost use Rattle.fsfs_draft.specs.Edits.{IsDraftAfter};
ghost use Rattle.fsfs_draft.specs.Own.{Own as Owns, OwnNode, draft_tree};
ghost use Rattle.fsfs_draft.specs.Steps.{kept_at};
ghost use Rattle.fsfs_model.specs.declared.flat.mark.Mark.{Mark};
ghost use Rattle.fsfs_revision.specs.Nodes.{is_revision_id};
ghost use Rattle.fsfs_revision.specs.Shows.Reading.{DirEntry, named, offset_of};
ghost use Rattle.fsfs_tree.specs.Nodes.{TreeFunction};
ghost use Rattle.fsfs_tree.specs.Trees.{IsTree};
ghost use Rattle.fsfs_draft.specs.Causes.{HasDiskCause, HasBenchCause};
ghost use Rattle.fsfs_draft.specs.Entries.{OfIdEntries, OfKept, IsWithin};
ghost use Rattle.fsfs_draft.specs.Errors.{IsFailure};
ghost use Rattle.fsfs_draft.specs.Walks.{HasKind};
ghost use Rattle.fsfs_draft.specs.declared.error.EditError.TheVariants.{OutOfMemory};
ghost use Rattle.fsfs_draft.specs.Views.{kept_value};
ghost use Rattle.fsfs_edit.specs.DagEdits.Mutable.{LeadsTo};
ghost use Rattle.fsfs_txn.specs.Opened.Knowing.{AreKnown};
ghost use Rattle.fsfs_txn.specs.Opened.Leading.{IsAmong, IsSourceKnown, LeadsDown, Leads};
ghost use Rattle.fsfs_txn.specs.Opened.Stepping.{IsDirKnown, IsNext, StillKnown, BecomesKnown};

use crate::opened::known::{Known, find, known_of};
use crate::opened::reaching::listed_known;
use fsfs_base::FsPath;
use fsfs_draft::{EditError, KeptNode, Own, root_id};
use fsfs_noderev::NodeId;
use fsfs_revision::{Book, ReadError, is_revision_id};
use std::alloc::Global;

/// The way to a node of the transaction: its path, and what is known of the revisions on it.
#[derive(Drop)]
pub struct Way {
    pub path: FsPath,
    pub known: Vec<Known>,
}

// The node-revision of a revision that stands there, or that an own one goes on from.
fn source_of<N: Own>(own: &N, id: &NodeId) -> Option<NodeId>
    ensures lasting { is_revision_id id.now ≡ true → result ≡ Some id.now }
    ensures own { (k : Kept) → is_revision_id id.now ≡ false → kept_at (N.folder own.now).nodes id.now ≡ Some k → result ≡ k.node.predecessor }
{
    if is_revision_id(id) {
        return Some(*id);
    }
    match own.kept(id) {
        None => None,
        Some(kept) => kept.node.predecessor,
    }
}

// The same of what stands above. An own directory with a `children` file tells its entries itself, and no more of it is wanted.
fn source_above<N: Own>(own: &N, id: &NodeId) -> Option<NodeId>
    ensures lasting { is_revision_id id.now ≡ true → result ≡ Some id.now }
    ensures own { (k : Kept) → is_revision_id id.now ≡ false → kept_at (N.folder own.now).nodes id.now ≡ Some k → k.entries ≡ None → result ≡ k.node.predecessor }
{
    if is_revision_id(id) {
        return Some(*id);
    }
    match own.kept(id) {
        None => None,
        Some(kept) => match &kept.entries {
            Some(_) => None,
            None => kept.node.predecessor,
        },
    }
}

// Adds it to what is known.
fn add(known: &mut Vec<Known>, one: Known) -> Result<(), EditError>
    ensures done { OnOk result (known.new.items ≡ known.old.items ++ one ∷ []) }
    ensures memory { IfErr result (λ e. e ≡ OutOfMemory) }
{
    match known.push(one) {
        Ok(()) => Ok(()),
        Err(_) => Err(EditError::OutOfMemory),
    }
}

// Reads it, if there is one, and adds it to what is known. Of what can't be read nothing is known.
fn note<B: Book>(
    alloc: Global,
    book: &mut B,
    source: Option<NodeId>,
    known: &mut Vec<Known>,
) -> Result<(), EditError>
    ensures known { (look : RevisionBytes) (top : ℕ) → Knows (B.told book.old).revs top look → AreKnown look top known.old.items → OnOk result (AreKnown look top known.new.items) }
    ensures still { StillKnown known.old.items known.new.items result }
    ensures becomes { (look : RevisionBytes) (top : ℕ) → Knows (B.told book.old).revs top look → BecomesKnown look top source known.new.items result }
    ensures failure { IfErr result (λ e. IsFailure e) }
    ensures kept { Keeps (B.told book.old) (B.told book.new) }
    ensures cause { HasDiskCause (B.faults book.old) (B.faults book.new) result }
    ensures quiet { (faults : ℕ) → HasBenchCause faults faults result }
{
    let Some(source) = source else {
        return Ok(());
    };
    match known_of(alloc, book, &source) {
        Err(ReadError::OutOfMemory) => Err(EditError::OutOfMemory),
        Err(ReadError::DiskFault) => Err(EditError::DiskFault),
        Err(ReadError::Wrong(_)) => Ok(()),
        Ok(one) => add(known, one),
    }
}

// The id that a name of a directory of a revision leads to.
fn lasting_child(known: &[Known], dir: &NodeId, name: &str) -> Option<NodeId>
    ensures { (look : RevisionBytes) (top : ℕ) → AreKnown look top known.now → (offset_of dir.now.place).rev ≤ top → IsAmong dir.now known.now → (entries : List DirEntry) × OfIdEntries look dir.now (Ok entries) × (result ≡ option_map (λ (e : DirEntry). e.id) (named name.now entries)) }
{
    let Some(one) = find(known, dir) else {
        return None;
    };
    match one.entries.get(name) {
        None => None,
        Some(entry) => Some(entry.id),
    }
}

// The id that a name of an own directory leads to.
fn own_child(known: &[Known], kept: &KeptNode, name: &str) -> Option<NodeId>
    ensures { (look : RevisionBytes) (top : ℕ) → AreKnown look top known.now → IsWithin top kept.now.node.predecessor → ((kept_value kept.now).entries ≡ None → IsSourceKnown known.now kept.now.node.predecessor) → (entries : List DirEntry) × OfKept look (kept_value kept.now) (Ok entries) × (result ≡ option_map (λ (e : DirEntry). e.id) (named name.now entries)) }
{
    let Some(entries) = listed_known(known, kept) else {
        return None;
    };
    match entries.get(name) {
        None => None,
        Some(entry) => Some(entry.id),
    }
}

// The id that a name of a directory leads to.
fn child_id<N: Own>(own: &N, known: &[Known], dir: &NodeId, name: &str) -> Option<NodeId>
    ensures { (look : RevisionBytes) (top : ℕ) → AreKnown look top known.now → IsDirKnown top (N.folder own.now).nodes known.now dir.now → IsNext look (N.folder own.now).nodes known.now dir.now name.now result }
{
    if is_revision_id(dir) {
        return lasting_child(known, dir, name);
    }
    match own.kept(dir) {
        None => None,
        Some(kept) => own_child(known, kept, name),
    }
}

// What is known of the revisions on the way from the root to the path.
fn known_to<B: Book, N: Own>(
    alloc: Global,
    book: &mut B,
    own: &N,
    root: &NodeId,
    path: &FsPath,
) -> Result<Vec<Known>, EditError>
    ensures known { (look : RevisionBytes) (top : ℕ) → Knows (B.told book.old).revs top look → IfOk result (λ all. AreKnown look top all.items) }
    ensures leads { (look : RevisionBytes) (trees : ℕ → TreeFunction) (top base : ℕ) (nodes : Owns) (v : OwnNode) → Knows (B.told book.old).revs top look → ShowTrees look top trees → base ≤ top → IsDraft look top base (N.txn own.now) (N.folder own.now) nodes → nodes [] ≡ Some v → v.node.id ≡ root.now → LeadsTo (draft_tree trees nodes (trees base)) path.now → IfOk result (λ all. LeadsDown look (N.folder own.now).nodes all.items path.now root.now) }
    ensures failure { IfErr result (λ e. IsFailure e) }
    ensures kept { Keeps (B.told book.old) (B.told book.new) }
    ensures cause { HasDiskCause (B.faults book.old) (B.faults book.new) result }
    ensures quiet { (faults : ℕ) → HasBenchCause faults faults result }
{
    let mut known = Vec::new(alloc);
    let mut at = *root;
    for name in path.names() {
        note(alloc, book, source_above(own, &at), &mut known)?;
        let Some(id) = child_id(own, known.as_slice(), &at, name) else {
            return Ok(known);
        };
        at = id;
    }
    note(alloc, book, source_of(own, &at), &mut known)?;
    Ok(known)
}

/// The way to a path at which something stands: all that a text or a property put there wants of the revisions is read.
pub(crate) fn way_to<B: Book, N: Own>(
    alloc: Global,
    book: &mut B,
    own: &N,
    path: &FsPath,
) -> Result<Way, EditError>
    ensures path { IfOk result (λ way. way.path ≡ path.now) }
    ensures known { (look : RevisionBytes) (top : ℕ) → Knows (B.told book.old).revs top look → IfOk result (λ way. AreKnown look top way.known.items) }
    ensures leads { (look : RevisionBytes) (trees : ℕ → TreeFunction) (top base : ℕ) (tree : TreeFunction) (marks : List Mark) (kind : Kinds) → Knows (B.told book.old).revs top look → ShowTrees look top trees → base ≤ top → IsTree tree → IsDraftAfter look trees top base (N.txn own.now) (N.folder own.now) tree marks → HasKind (tree path.now) kind → IfOk result (λ way. Leads look (N.txn own.now) (N.folder own.now) way) }
    ensures failure { IfErr result (λ e. IsFailure e) }
    ensures kept { Keeps (B.told book.old) (B.told book.new) }
    ensures cause { HasDiskCause (B.faults book.old) (B.faults book.new) result }
    ensures quiet { (faults : ℕ) → HasBenchCause faults faults result }
{
    let root = root_id(own.name());
    let known = known_to(alloc, book, own, &root, path)?;
    let path = path.clone()?;
    Ok(Way { path, known })
}
