//! The predecessor of a node-revision.
ghost use Rattle.std.specs.Prelude.{◌≡◌, true, false, IfOk, IfSome, OnOk, option_map};
ghost use Rattle.fsfs_revision.specs.Damage.Causes.{HasCause, IsQuiet};
ghost use Rattle.fsfs_revision.specs.Told.{RevisionBytes, Knows, Keeps};
ghost use Rattle.fsfs_revision.specs.Shows.Chains.{IsPred};
ghost use Rattle.fsfs_dag.specs.Views.{home_of};
ghost use Rattle.fsfs_verify.specs.Finds.{Finds};
ghost use Rattle.fsfs_verify.specs.Preds.{IsWrongPred};
ghost use Rattle.fsfs_sound.specs.Written.{GoesOnFrom, Precedes};

use crate::damage::breaks_off;
use fsfs_dag::{PlacedNode, named_node, same_part};
use fsfs_noderev::NodeRev;
use fsfs_revision::{Book, ReadError};
use std::alloc::Global;

// Whether a node-revision goes on from another: it has the same node part and kind, and one predecessor more.
fn goes_on(node: &NodeRev, pred: &NodeRev) -> bool
    ensures yes { result ≡ true → GoesOnFrom node.now pred.now }
    ensures other { result ≡ false → GoesOnFrom node.now pred.now → ⊥ }
{
    same_part(node.id.node, pred.id.node)
        && node.kind == pred.kind
        && node.count == pred.count.saturating_add(1)
}

fn check_goes_on(node: &PlacedNode, pred: &PlacedNode) -> Result<(), ReadError>
    ensures told { (look : RevisionBytes) → IsPred look node.now.node pred.now.node → Finds (λ _. GoesOnFrom node.now.node pred.now.node) (IsWrongPred look node.now.node) result }
    ensures kind { OnOk result (pred.now.node.kind ≡ node.now.node.kind) }
    ensures quiet { IsQuiet result }
{
    if goes_on(&node.node, &pred.node) {
        Ok(())
    } else {
        Err(breaks_off(node))
    }
}

/// The predecessor of a node-revision, if it has one. The node-revision goes on from it, else it is PredId.
pub(crate) fn pred_of<B: Book>(
    alloc: Global,
    book: &mut B,
    node: &PlacedNode,
) -> Result<Option<PlacedNode>, ReadError>
    ensures told { (look : RevisionBytes) → Knows (B.told book.old).revs (home_of node.now.node).rev look → Finds (λ pred. Precedes look node.now.node (option_map (λ u. u.node) pred)) (IsWrongPred look node.now.node) result }
    ensures kind { IfOk result (λ pred. IfSome pred (λ u. u.node.kind ≡ node.now.node.kind)) }
    ensures kept { Keeps (B.told book.old) (B.told book.new) }
    ensures cause { HasCause (B.faults book.old) (B.faults book.new) result }
{
    match &node.node.predecessor {
        None => Ok(None),
        Some(id) => {
            let pred = named_node(alloc, book, id)?;
            check_goes_on(node, &pred)?;
            Ok(Some(pred))
        }
    }
}
