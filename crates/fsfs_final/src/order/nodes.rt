//! The walk through a transaction's own node-revisions.
//!
//! What is left to look at stands in a list of its own, so that no path is too deep for it.
ghost use Rattle.std.specs.Prelude.{◌≡◌, ◌∷◌, ◌≤◌, ℕ, IfOk, IfErr, OnOk};
ghost use Rattle.fsfs_tree.specs.Nodes.{TreeFunction};
ghost use Rattle.fsfs_revision.specs.Told.{RevisionBytes};
ghost use Rattle.fsfs_draft.specs.Own.{Own as OwnNodes};
ghost use Rattle.fsfs_draft.specs.Drafts.{IsDraft, ShowTrees};
ghost use Rattle.fsfs_draft.specs.Views.{kept_value};
ghost use Rattle.fsfs_final.specs.Order.Orders.{last_first, AreHeld, IsOrder};
ghost use Rattle.fsfs_final.specs.Order.Children.{id_named, ArePushed, LacksChild, IfLacking};

use crate::order::children::{push, push_children};
use crate::order::error::OrderError;
use fsfs_draft::{KeptNode, Own, root_id};
use std::alloc::Global;

// A node-revision is found, and what is in it is to be looked at next.
fn step<'a, N: Own>(
    alloc: Global,
    own: &'a N,
    kept: &'a KeptNode,
    found: &mut Vec<&'a KeptNode>,
    next: &mut Vec<&'a KeptNode>,
) -> Result<(), OrderError>
    ensures found { OnOk result (last_first found.new.items ≡ kept_value kept.now ∷ last_first found.old.items) }
    ensures pushed { OnOk result (ArePushed (N.folder own.now).nodes (id_named (kept_value kept.now).entries) (last_first next.old.items) (last_first next.new.items)) }
    ensures lacking { IfErr result (λ e. IfLacking e (LacksChild (N.folder own.now).nodes (id_named (kept_value kept.now).entries))) }
{
    push_children(alloc, own, kept, next)?;
    push(found, kept)?;
    Ok(())
}

/// The transaction's own node-revisions. Taken from the end on, that is the order in which they are put: what is in a directory
/// by byte order of the names, and then the directory. (The order is this project's profile.)
///
/// No transaction has as many as there are numbers of 64 bits: an `Err` for want of memory is for these, too.
pub fn own_nodes<'a, N: Own>(alloc: Global, own: &'a N) -> Result<Vec<&'a KeptNode>, OrderError>
    // They are of the folder, whatever that holds.
    ensures held { IfOk result (λ all. AreHeld (N.folder own.now).nodes (last_first all.items)) }
    // Where it holds a draft, each is there once, behind what is in it.
    ensures draft { (look : RevisionBytes) (trees : ℕ → TreeFunction) (top base : ℕ) (nodes : OwnNodes) → ShowTrees look top trees → base ≤ top → IsDraft look top base (N.txn own.now) (N.folder own.now) nodes → IfOk result (λ all. IsOrder nodes (last_first all.items)) }
    ensures whole { (look : RevisionBytes) (trees : ℕ → TreeFunction) (top base : ℕ) (nodes : OwnNodes) → ShowTrees look top trees → base ≤ top → IsDraft look top base (N.txn own.now) (N.folder own.now) nodes → IfErr result (λ e. e ≡ OrderError.OutOfMemory) }
{
    let root = root_id(own.name());
    let Some(first) = own.kept(&root) else {
        return Err(OrderError::Lacking);
    };
    let mut next = Vec::new(alloc);
    push(&mut next, first)?;
    let mut found = Vec::new(alloc);
    for _ in 0..u64::MAX {
        let Some(kept) = next.pop() else {
            return Ok(found);
        };
        step(alloc, own, kept, &mut found, &mut next)?;
    }
    Err(OrderError::OutOfMemory)
}
