//! How all that stands on the way down a path becomes the transaction's own, by what is known of the revisions.
ghost use Rattle.std.specs.Prelude.{◌≡◌, ◌≤◌, [], ◌∷◌, ℕ, Some, None, IfSome, MatchOption, OnOk};
ghost use Rattle.fsfs_tree.specs.Nodes.{TreeFunction};
ghost use Rattle.fsfs_base.specs.Paths.{Path};
ghost use Rattle.fsfs_base.specs.declared.kind.Kind.TheVariants.{Dir};
ghost use Rattle.fsfs_revision.specs.Told.{RevisionBytes};
ghost use Rattle.fsfs_dag.specs.Listing.Views.{listed};
ghost use Rattle.fsfs_draft.specs.Own.{Own as Owns, OwnNode};
ghost use Rattle.fsfs_draft.specs.Drafts.{IsDraft, ShowTrees};
ghost use Rattle.fsfs_draft.specs.Causes.{HasBenchCause};
ghost use Rattle.fsfs_draft.specs.Entries.{IsListedAs, IsWithin};
ghost use Rattle.fsfs_draft.specs.Views.{kept_value};
ghost use Rattle.fsfs_txn.specs.Opened.Knowing.{AreKnown};
ghost use Rattle.fsfs_txn.specs.Opened.Leading.{IsSourceKnown, LeadsDown};
ghost use Rattle.fsfs_txn.specs.Opened.Reaching.{ReachesChild, Reaches};
ghost use Rattle.fsfs_txn.specs.Opened.Stepping.{LeadsOn, LeadsAsBefore};

use crate::opened::known::{Known, find};
use fsfs_base::{FsPath, Kind};
use fsfs_dag::Listing;
use fsfs_draft::{EditError, KeptNode, Own};
use fsfs_edit::change_child;
use fsfs_noderev::NodeId;
use fsfs_revision::is_revision_id;
use std::alloc::Global;

/// The entries of an own directory: those of its `children` file, or those that are known of what it goes on from.
pub(crate) fn listed_known<'a>(known: &'a [Known], kept: &'a KeptNode) -> Option<&'a Listing>
    ensures told { (look : RevisionBytes) (top : ℕ) → AreKnown look top known.now → IsWithin top kept.now.node.predecessor → IfSome result (λ l. IsListedAs look (kept_value kept.now) (listed l.now)) }
    ensures own { IfSome result (λ l. IfSome (kept_value kept.now).entries (λ entries. listed l.now ≡ entries)) }
    ensures none { ((kept_value kept.now).entries ≡ None → IsSourceKnown known.now kept.now.node.predecessor) → MatchOption result (((kept_value kept.now).entries ≡ None) × (kept.now.node.predecessor ≡ None)) (λ _. Unit {0}) }
{
    match &kept.entries {
        Some(entries) => Some(entries),
        None => match &kept.node.predecessor {
            None => None,
            Some(id) => match find(known, id) {
                None => None,
                Some(one) => Some(&one.entries),
            },
        },
    }
}

// Makes what stands under a name of an own directory the transaction's own, and answers its id.
fn child_in<N: Own>(
    alloc: Global,
    own: &mut N,
    known: &[Known],
    dir: &NodeId,
    name: &str,
) -> Result<NodeId, EditError>
    ensures draft { (look : RevisionBytes) (trees : ℕ → TreeFunction) (top base : ℕ) (nodes : Owns) (p : Path) (d : OwnNode) → AreKnown look top known.now → ShowTrees look top trees → base ≤ top → IsDraft look top base (N.txn own.old) (N.folder own.old) nodes → nodes p ≡ Some d → d.node.id ≡ dir.now → d.node.kind ≡ Dir → ReachesChild look trees top base (N.txn own.old) (N.folder own.old) nodes p name.now (N.folder own.new) result }
    ensures leads { (look : RevisionBytes) (trees : ℕ → TreeFunction) (top base : ℕ) (nodes : Owns) (p : Path) (d : OwnNode) → AreKnown look top known.now → ShowTrees look top trees → base ≤ top → IsDraft look top base (N.txn own.old) (N.folder own.old) nodes → nodes p ≡ Some d → d.node.id ≡ dir.now → d.node.kind ≡ Dir → (rest : Path) → LeadsDown look (N.folder own.old).nodes known.now (name.now ∷ rest) dir.now → LeadsOn look (N.folder own.new).nodes known.now rest result }
    ensures still { (look : RevisionBytes) (trees : ℕ → TreeFunction) (top base : ℕ) (nodes : Owns) (p : Path) (d : OwnNode) → AreKnown look top known.now → ShowTrees look top trees → base ≤ top → IsDraft look top base (N.txn own.old) (N.folder own.old) nodes → nodes p ≡ Some d → d.node.id ≡ dir.now → d.node.kind ≡ Dir → LeadsAsBefore look (N.folder own.old).nodes (N.folder own.new).nodes result }
    ensures proto { OnOk result ((N.folder own.new).proto ≡ (N.folder own.old).proto) }
    ensures settled { N.settled own.new ≡ N.settled own.old }
    ensures name { N.txn own.new ≡ N.txn own.old }
    ensures bench { HasBenchCause (N.faults own.old) (N.faults own.new) result }
{
    let Some(kept) = own.kept(dir) else {
        return Err(EditError::Lacking);
    };
    let Some(entries) = listed_known(known, kept) else {
        return Err(EditError::Lacking);
    };
    let Some(entry) = entries.get(name) else {
        return Err(EditError::Lacking);
    };
    let kind = entry.kind;
    let id = entry.id;
    if !is_revision_id(&id) {
        return Ok(id);
    }
    let Some(old) = find(known, &id) else {
        return Err(EditError::Lacking);
    };
    let all = entries.shared()?;
    change_child(alloc, own, dir, all, name, kind, &old.node)
}

// The same of what may be no directory.
fn child_at<N: Own>(
    alloc: Global,
    own: &mut N,
    known: &[Known],
    dir: &NodeId,
    name: &str,
) -> Result<NodeId, EditError>
    ensures draft { (look : RevisionBytes) (trees : ℕ → TreeFunction) (top base : ℕ) (nodes : Owns) (p : Path) (d : OwnNode) → AreKnown look top known.now → ShowTrees look top trees → base ≤ top → IsDraft look top base (N.txn own.old) (N.folder own.old) nodes → nodes p ≡ Some d → d.node.id ≡ dir.now → ReachesChild look trees top base (N.txn own.old) (N.folder own.old) nodes p name.now (N.folder own.new) result }
    ensures leads { (look : RevisionBytes) (trees : ℕ → TreeFunction) (top base : ℕ) (nodes : Owns) (p : Path) (d : OwnNode) → AreKnown look top known.now → ShowTrees look top trees → base ≤ top → IsDraft look top base (N.txn own.old) (N.folder own.old) nodes → nodes p ≡ Some d → d.node.id ≡ dir.now → (rest : Path) → LeadsDown look (N.folder own.old).nodes known.now (name.now ∷ rest) dir.now → LeadsOn look (N.folder own.new).nodes known.now rest result }
    ensures still { (look : RevisionBytes) (trees : ℕ → TreeFunction) (top base : ℕ) (nodes : Owns) (p : Path) (d : OwnNode) → AreKnown look top known.now → ShowTrees look top trees → base ≤ top → IsDraft look top base (N.txn own.old) (N.folder own.old) nodes → nodes p ≡ Some d → d.node.id ≡ dir.now → LeadsAsBefore look (N.folder own.old).nodes (N.folder own.new).nodes result }
    ensures proto { OnOk result ((N.folder own.new).proto ≡ (N.folder own.old).proto) }
    ensures settled { N.settled own.new ≡ N.settled own.old }
    ensures name { N.txn own.new ≡ N.txn own.old }
    ensures bench { HasBenchCause (N.faults own.old) (N.faults own.new) result }
{
    let Some(kept) = own.kept(dir) else {
        return Err(EditError::Lacking);
    };
    match kept.node.kind {
        Kind::File => Err(EditError::Lacking),
        Kind::Dir => child_in(alloc, own, known, dir, name),
    }
}

/// Makes what stands on the way from the root to the path the transaction's own, and answers the id of what stands at the path. Where
/// it is not known what stands there, it is `Lacking`.
pub(crate) fn reach<N: Own>(
    alloc: Global,
    own: &mut N,
    known: &[Known],
    root: &NodeId,
    path: &FsPath,
) -> Result<NodeId, EditError>
    ensures draft { (look : RevisionBytes) (trees : ℕ → TreeFunction) (top base : ℕ) (nodes : Owns) (v : OwnNode) → AreKnown look top known.now → ShowTrees look top trees → base ≤ top → IsDraft look top base (N.txn own.old) (N.folder own.old) nodes → nodes [] ≡ Some v → v.node.id ≡ root.now → Reaches look trees top base (N.txn own.old) (N.folder own.old) nodes path.now (N.folder own.new) result }
    ensures leads { (look : RevisionBytes) (trees : ℕ → TreeFunction) (top base : ℕ) (nodes : Owns) (v : OwnNode) → AreKnown look top known.now → ShowTrees look top trees → base ≤ top → IsDraft look top base (N.txn own.old) (N.folder own.old) nodes → nodes [] ≡ Some v → v.node.id ≡ root.now → LeadsDown look (N.folder own.old).nodes known.now path.now root.now → LeadsOn look (N.folder own.new).nodes known.now [] result }
    ensures still { (look : RevisionBytes) (trees : ℕ → TreeFunction) (top base : ℕ) (nodes : Owns) (v : OwnNode) → AreKnown look top known.now → ShowTrees look top trees → base ≤ top → IsDraft look top base (N.txn own.old) (N.folder own.old) nodes → nodes [] ≡ Some v → v.node.id ≡ root.now → LeadsAsBefore look (N.folder own.old).nodes (N.folder own.new).nodes result }
    ensures proto { OnOk result ((N.folder own.new).proto ≡ (N.folder own.old).proto) }
    ensures settled { N.settled own.new ≡ N.settled own.old }
    ensures name { N.txn own.new ≡ N.txn own.old }
    ensures bench { HasBenchCause (N.faults own.old) (N.faults own.new) result }
{
    let mut id = *root;
    for name in path.names() {
        id = child_at(alloc, own, known, &id, name)?;
    }
    Ok(id)
}
