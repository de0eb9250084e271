//! A text or properties put at an own node-revision.
ghost use Rattle.std.specs.Prelude.{◌≡◌, Some, None, OnOk, IfErr};
ghost use Rattle.fsfs_draft.specs.Drafts.{Kept};
ghost use Rattle.fsfs_draft.specs.Steps.{kept_at};
ghost use Rattle.fsfs_draft.specs.Causes.{HasBenchCause};
ghost use Rattle.fsfs_draft.specs.Errors.{IsWant};
ghost use Rattle.fsfs_draft.specs.Views.{text_put, props_put};

use fsfs_base::Pairs;
use fsfs_draft::{EditError, Own};
use fsfs_noderev::{NodeId, Rep};

/// Gives an own node-revision another text, a representation.
pub fn set_text<N: Own>(own: &mut N, id: &NodeId, rep: &Rep) -> Result<(), EditError>
    ensures done { (k : Kept) → kept_at (N.folder own.old).nodes id.now ≡ Some k → OnOk result (N.folder own.new ≡ text_put (N.folder own.old) id.now k rep.now) }
    ensures cause { IfErr result (λ e. IsWant e (kept_at (N.folder own.old).nodes id.now ≡ None)) }
    ensures settled { N.settled own.new ≡ N.settled own.old }
    ensures name { N.txn own.new ≡ N.txn own.old }
    ensures bench { HasBenchCause (N.faults own.old) (N.faults own.new) result }
{
    let Some(_kept) = own.kept(id) else {
        return Err(EditError::Lacking);
    };
    own.put_text(id, rep)?;
    Ok(())
}

/// Gives an own node-revision these properties.
pub fn set_props<N: Own>(own: &mut N, id: &NodeId, props: Pairs) -> Result<(), EditError>
    ensures done { (k : Kept) → kept_at (N.folder own.old).nodes id.now ≡ Some k → OnOk result (N.folder own.new ≡ props_put (N.folder own.old) id.now k props) }
    ensures cause { IfErr result (λ e. IsWant e (kept_at (N.folder own.old).nodes id.now ≡ None)) }
    ensures settled { N.settled own.new ≡ N.settled own.old }
    ensures name { N.txn own.new ≡ N.txn own.old }
    ensures bench { HasBenchCause (N.faults own.old) (N.faults own.new) result }
{
    let Some(_kept) = own.kept(id) else {
        return Err(EditError::Lacking);
    };
    own.put_props(id, props)?;
    Ok(())
}
