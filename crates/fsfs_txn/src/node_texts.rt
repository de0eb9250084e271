//! The text of what a walk came to.
ghost use Rattle.std.specs.Prelude.{◌≡◌, ℕ};
ghost use Rattle.fsfs_draft.specs.Causes as causes;
ghost use Rattle.fsfs_txn.specs.GettingTexts.{rep_of, ReadsText};

use fsfs_base::Kind;
use fsfs_draft::{EditError, Own, Step};
use fsfs_noderev::{Contents, NodeId, NodeRev, Rep};

// The representation of a node-revision's text; a directory has none.
fn text_in(node: &NodeRev) -> Option<Rep>
    ensures { result ≡ rep_of node.now.kind node.now.text }
{
    match node.kind {
        Kind::Dir => None,
        Kind::File => match &node.text {
            None => None,
            Some(Contents::Own) => None,
            Some(Contents::At(rep)) => Some(*rep),
        },
    }
}

// The text of an own node-revision.
fn own_text<N: Own>(own: &N, id: &NodeId) -> Result<Option<Rep>, EditError>
    ensures told { ReadsText (N.txn own.now) (N.folder own.now) (Step.Own id.now) result }
    ensures disk { (faults : ℕ) → causes.HasDiskCause faults faults result }
    ensures bench { causes.HasBenchCause (N.faults own.now) (N.faults own.now) result }
{
    match own.kept(id) {
        None => Err(EditError::Lacking),
        Some(kept) => Ok(text_in(&kept.node)),
    }
}

/// The representation of the text of what a walk came to; none: it has no byte.
pub(crate) fn text_of<N: Own>(own: &N, step: &Step) -> Result<Option<Rep>, EditError>
    ensures told { ReadsText (N.txn own.now) (N.folder own.now) step.now result }
    ensures disk { (faults : ℕ) → causes.HasDiskCause faults faults result }
    ensures bench { causes.HasBenchCause (N.faults own.now) (N.faults own.now) result }
{
    match step {
        Step::Own(id) => own_text(own, id),
        Step::Lasting(found) => Ok(text_in(&found.node)),
    }
}
