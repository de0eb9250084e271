//! What stands at a path of the transaction's tree.
ghost use Rattle.std.specs.Prelude.{◌≡◌, ◌≤◌, ◌++◌, ◌∷◌, [], ℕ, Some};
ghost use Rattle.fsfs_tree.specs.Nodes.{TreeFunction};
ghost use Rattle.fsfs_base.specs.Paths.{Path};
ghost use Rattle.fsfs_base.specs.declared.kind.Kind.TheVariants.{Dir};
ghost use Rattle.fsfs_revision.specs.Told.{RevisionBytes, Knows, Keeps};
ghost use Rattle.fsfs_draft.specs.Own.{Own as Owns, OwnNode, draft_tree};
ghost use Rattle.fsfs_draft.specs.Drafts.{Folder, IsDraft, ShowTrees};
ghost use Rattle.fsfs_base.specs.declared.fields.txn_name.TxnName.{TxnName};
ghost use Rattle.fsfs_draft.specs.Walks.{IsRootId, IsAt, IsLastingAt, HasKind, IsChild, IsFound};
ghost use Rattle.fsfs_draft.specs.Causes.{HasDiskCause, HasBenchCause};

use crate::entries::listed_in;
use crate::error::EditError;
use crate::txn_noderevs::Own;
use fsfs_base::{B36, FsPath, Kind, TxnName};
use fsfs_dag::{PlacedNode, child_named, child_of};
use fsfs_noderev::{NodeId, Part, Place};
use fsfs_revision::{Book, is_revision_id};
use std::alloc::Global;

/// A node-revision that a walk came to: the transaction's own, or one of a revision.
#[derive(Drop)]
pub enum Step {
    Own(NodeId),
    Lasting(PlacedNode),
}

/// A node-revision and its kind.
#[derive(Drop)]
pub struct Child {
    pub step: Step,
    pub kind: Kind,
}

/// The id of a transaction's root.
pub fn root_id(txn: TxnName) -> NodeId
    ensures { IsRootId txn result }
{
    NodeId {
        node: Part::Old(B36 { number: 0 }),
        copy: Part::Old(B36 { number: 0 }),
        place: Place::In(txn),
    }
}

// The child of a name in an own directory, if it has one.
fn own_child<B: Book, N: Own>(
    alloc: Global,
    book: &mut B,
    own: &N,
    dir: &NodeId,
    name: &str,
) -> Result<Option<Child>, EditError>
    ensures draft { (look : RevisionBytes) (trees : ℕ → TreeFunction) (top base : ℕ) (nodes : Owns) (p : Path) (d : OwnNode) → Knows (B.told book.old).revs top look → ShowTrees look top trees → base ≤ top → IsDraft look top base (N.txn own.now) (N.folder own.now) nodes → nodes p ≡ Some d → d.node.id ≡ dir.now → d.node.kind ≡ Dir → IsChild look trees base nodes (p ++ name.now ∷ []) result }
    ensures kept { Keeps (B.told book.old) (B.told book.new) }
    ensures cause { HasDiskCause (B.faults book.old) (B.faults book.new) result }
    ensures bench { HasBenchCause (N.faults own.now) (N.faults own.now) result }
{
    let Some(kept) = own.kept(dir) else {
        return Err(EditError::Lacking);
    };
    let entries = listed_in(alloc, book, kept)?;
    let Some(entry) = entries.get(name) else {
        return Ok(None);
    };
    let kind = entry.kind;
    if !is_revision_id(&entry.id) {
        return Ok(Some(Child {
            step: Step::Own(entry.id),
            kind,
        }));
    }
    let found = child_of(alloc, book, entry)?;
    Ok(Some(Child {
        step: Step::Lasting(found),
        kind,
    }))
}

// The child of a name in a directory of a revision, if it has one.
fn lasting_below<B: Book>(
    alloc: Global,
    book: &mut B,
    dir: &PlacedNode,
    name: &str,
) -> Result<Option<Child>, EditError>
    requires { dir.now.node.kind ≡ Dir }
    ensures draft { (look : RevisionBytes) (trees : ℕ → TreeFunction) (top base : ℕ) (txn : TxnName) (f : Folder) (nodes : Owns) (path : Path) → Knows (B.told book.old).revs top look → ShowTrees look top trees → base ≤ top → IsDraft look top base txn f nodes → IsLastingAt look trees base nodes path dir.now.node → IsChild look trees base nodes (path ++ name.now ∷ []) result }
    ensures kept { Keeps (B.told book.old) (B.told book.new) }
    ensures cause { HasDiskCause (B.faults book.old) (B.faults book.new) result }
    ensures quiet { (faults : ℕ) → HasBenchCause faults faults result }
{
    match child_named(alloc, book, dir, name)? {
        None => Ok(None),
        Some(found) => {
            let kind = found.node.kind;
            Ok(Some(Child {
                step: Step::Lasting(found),
                kind,
            }))
        }
    }
}

/// What stands at a path of the transaction's tree.
#[derive(Drop)]
pub enum Found {
    Node(Child),
    /// So many names from the root lead to nothing.
    Absent(usize),
    /// So many names lead to a file, and more follow.
    File(usize),
}

/// The child of a name of a directory that a walk came to, if it has one.
pub fn next<B: Book, N: Own>(
    alloc: Global,
    book: &mut B,
    own: &N,
    dir: &Step,
    name: &str,
) -> Result<Option<Child>, EditError>
    ensures draft { (look : RevisionBytes) (trees : ℕ → TreeFunction) (top base : ℕ) (nodes : Owns) (path : Path) → Knows (B.told book.old).revs top look → ShowTrees look top trees → base ≤ top → IsDraft look top base (N.txn own.now) (N.folder own.now) nodes → IsAt look trees base nodes path dir.now → HasKind (draft_tree trees nodes (trees base) path) Dir → IsChild look trees base nodes (path ++ name.now ∷ []) result }
    ensures kept { Keeps (B.told book.old) (B.told book.new) }
    ensures cause { HasDiskCause (B.faults book.old) (B.faults book.new) result }
    ensures bench { HasBenchCause (N.faults own.now) (N.faults own.now) result }
{
    match dir {
        Step::Own(id) => own_child(alloc, book, own, id, name),
        Step::Lasting(found) => match found.node.kind {
            Kind::File => Err(EditError::Lacking),
            Kind::Dir => lasting_below(alloc, book, found, name),
        },
    }
}

/// What stands at a path of the transaction's tree, whose root's id this is.
pub fn met<B: Book, N: Own>(
    alloc: Global,
    book: &mut B,
    own: &N,
    root: &NodeId,
    path: &FsPath,
) -> Result<Found, EditError>
    // Where the folder holds a draft the answer is its tree's, and nothing is wrong.
    ensures draft { (look : RevisionBytes) (trees : ℕ → TreeFunction) (top base : ℕ) (nodes : Owns) (v : OwnNode) → Knows (B.told book.old).revs top look → ShowTrees look top trees → base ≤ top → IsDraft look top base (N.txn own.now) (N.folder own.now) nodes → nodes [] ≡ Some v → v.node.id ≡ root.now → v.node.kind ≡ Dir → IsFound look trees base nodes path.now result }
    ensures kept { Keeps (B.told book.old) (B.told book.new) }
    ensures cause { HasDiskCause (B.faults book.old) (B.faults book.new) result }
    ensures bench { HasBenchCause (N.faults own.now) (N.faults own.now) result }
{
    let mut at = Child {
        step: Step::Own(*root),
        kind: Kind::Dir,
    };
    let mut depth = 0usize;
    for name in path.names() {
        match at.kind {
            Kind::File => return Ok(Found::File(depth)),
            Kind::Dir => {}
        }
        match next(alloc, book, own, &at.step, name)? {
            None => return Ok(Found::Absent(depth + 1)),
            Some(child) => at = child,
        }
        depth += 1;
    }
    Ok(Found::Node(at))
}
