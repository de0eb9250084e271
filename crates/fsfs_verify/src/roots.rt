//! The root of a revision.
ghost use Rattle.std.specs.Prelude.{◌≡◌, true, false, None, Ok, Err, IfOk, option_map};
ghost use Rattle.fsfs_base.specs.declared.kind.Kind.TheVariants.{Dir};
ghost use Rattle.fsfs_noderev.specs.Ids.{part_value, Old};
ghost use Rattle.fsfs_revision.specs.Damage.Causes.{HasCause};
ghost use Rattle.fsfs_revision.specs.Told.{RevisionBytes, Knows, Keeps};
ghost use Rattle.fsfs_revision.specs.Shows.Chains.{copy_root_of};
ghost use Rattle.fsfs_revision.specs.Shows.Reading.{RootOf};
ghost use Rattle.fsfs_dag.specs.Views.{home_of};
ghost use Rattle.fsfs_verify.specs.Finds.{Finds};
ghost use Rattle.fsfs_verify.specs.Roots.{IsRootBehind, IsWrongFirst, IsWrongRoot};
ghost use Rattle.fsfs_sound.specs.Rules.{IsFirstRoot, FollowsRoot};

use crate::damage::breaks_rule;
use crate::numbers::is_first;
use crate::same::{root_rev, same_root};
use fsfs_base::{Kind, RevNum};
use fsfs_dag::{PlacedNode, entries, root_of, same_id};
use fsfs_noderev::NodeRev;
use fsfs_revision::{Book, ReadError};
use std::alloc::Global;

// Whether it is of node 0 and copy 0, and no copy.
fn is_first_node(root: &NodeRev) -> bool
    ensures yes { result ≡ true → (part_value root.now.id.node ≡ Old 0) × (part_value root.now.id.copy ≡ Old 0) × (root.now.copy_from ≡ None) }
    ensures other { result ≡ false → (part_value root.now.id.node ≡ Old 0) × (part_value root.now.id.copy ≡ Old 0) × (root.now.copy_from ≡ None) → ⊥ }
{
    is_first(&root.id.node) && is_first(&root.id.copy) && root.copy_from.is_none()
}

// Whether a root goes on from the one of the revision before, and has its copy root.
fn follows(root: &NodeRev, last: &NodeRev) -> bool
    ensures yes { result ≡ true → FollowsRoot root.now last.now }
    ensures other { result ≡ false → FollowsRoot root.now last.now → ⊥ }
{
    match &root.predecessor {
        None => false,
        Some(id) => same_id(id, &last.id) && same_root(root, last),
    }
}

// Whether it is without predecessor and properties, and its copy root is of revision 0.
fn is_new(root: &NodeRev) -> bool
    ensures yes { result ≡ true → (root.now.predecessor ≡ None) × (root.now.props ≡ None) × ((copy_root_of root.now).0 ≡ 0) }
    ensures other { result ≡ false → (root.now.predecessor ≡ None) × (root.now.props ≡ None) × ((copy_root_of root.now).0 ≡ 0) → ⊥ }
{
    root.predecessor.is_none() && root.props.is_none() && root_rev(root).get() == 0
}

/// The root of a revision, which is a directory.
pub(crate) fn dir_root<B: Book>(
    alloc: Global,
    book: &mut B,
    rev: RevNum,
) -> Result<PlacedNode, ReadError>
    ensures told { (look : RevisionBytes) → Knows (B.told book.old).revs rev look → Finds (λ root. RootOf look rev (Ok root.node)) (λ w. RootOf look rev (Err w)) result }
    ensures dir { IfOk result (λ root. root.node.kind ≡ Dir) }
    ensures kept { Keeps (B.told book.old) (B.told book.new) }
    ensures cause { HasCause (B.faults book.old) (B.faults book.new) result }
{
    let root = root_of(alloc, book, rev)?;
    match root.node.kind {
        Kind::Dir => Ok(root),
        // Which is told as another damage.
        Kind::File => Err(breaks_rule(&root)),
    }
}

// The root of revision 0: without predecessor, properties and entries.
fn check_first<B: Book>(alloc: Global, book: &mut B, root: &PlacedNode) -> Result<(), ReadError>
    requires { root.now.node.kind ≡ Dir }
    ensures told { (look : RevisionBytes) → Knows (B.told book.old).revs (home_of root.now.node).rev look → Finds (λ _. IsFirstRoot look root.now.node) (IsWrongFirst look root.now.node) result }
    ensures kept { Keeps (B.told book.old) (B.told book.new) }
    ensures cause { HasCause (B.faults book.old) (B.faults book.new) result }
{
    let below = entries(alloc, book, root)?;
    if !is_new(&root.node) {
        return Err(breaks_rule(root));
    }
    if below.is_empty() {
        Ok(())
    } else {
        Err(breaks_rule(root))
    }
}

/// The root of a revision against that of the revision before.
pub(crate) fn check_root<B: Book>(
    alloc: Global,
    book: &mut B,
    root: &PlacedNode,
    last: Option<&PlacedNode>,
) -> Result<(), ReadError>
    requires { root.now.node.kind ≡ Dir }
    ensures told { (look : RevisionBytes) → Knows (B.told book.old).revs (home_of root.now.node).rev look
        → Finds (λ _. IsRootBehind look root.now.node (option_map (λ v. v.now.node) last.entry)) (IsWrongRoot look root.now.node (option_map (λ v. v.now.node) last.entry)) result }
    ensures kept { Keeps (B.told book.old) (B.told book.new) }
    ensures cause { HasCause (B.faults book.old) (B.faults book.new) result }
{
    if !is_first_node(&root.node) {
        return Err(breaks_rule(root));
    }
    match last {
        None => check_first(alloc, book, root),
        Some(last) => {
            if follows(&root.node, &last.node) {
                Ok(())
            } else {
                Err(breaks_rule(root))
            }
        }
    }
}
