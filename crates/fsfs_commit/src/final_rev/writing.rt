//! The bytes of a new revision behind its prototype file.
ghost use Rattle.std.specs.Prelude.{◌≡◌, [], ℕ, List, IfOk, IfErr};
ghost use Rattle.fsfs_tree.specs.Nodes.{TreeFunction};
ghost use Rattle.fsfs_model.specs.declared.flat.mark.Mark.{Mark};
ghost use Rattle.fsfs_revision.specs.Told.{RevisionBytes};
ghost use Rattle.fsfs_final.specs.Pieces.Naming.{ids_of};
ghost use Rattle.fsfs_commit.specs.FinalRev.Rooms.{IsWithinRoom};
ghost use Rattle.fsfs_commit.specs.FinalRev.Texts.{IsHandedOver, IsFinalText, IsWrittenText, IsRefused, HasPathPast, IfPastLimit, IfUnwritten, HasSinkCause, root_at};

use crate::final_rev::error::FinalError;
use crate::final_rev::items::final_items;
use fsfs_base::{FsPath, RevNum, Sink, print};
use fsfs_draft::Own;
use fsfs_final::{own_nodes, put_all, put_end};
use fsfs_noderev::{ChangeItem, NodeId, Place};
use std::alloc::Global;
use std::collections::BTreeMap;

// Where the root's node-revision begins.
fn root_offset(alloc: Global, ids: &BTreeMap<FsPath, NodeId>) -> Option<u64>
    ensures { result ≡ root_at (ids_of ids.now []) }
{
    let root = FsPath::root(alloc);
    match ids.get(&root) {
        None => None,
        Some(id) => match id.place {
            Place::At(_, offset) => Some(offset),
            Place::In(_) => None,
        },
    }
}

/// The bytes of revision `rev` behind its prototype file, which has `start` bytes: of the transaction whose own node-revisions these
/// are, and whose edits left these items.
///
/// An `Err` for want of memory is for an offset that there is no number for, too.
pub fn final_text<N: Own>(
    alloc: Global,
    own: &N,
    items: &[ChangeItem],
    rev: RevNum,
    start: u64,
) -> Result<Vec<u8>, FinalError>
    // Behind the prototype file they are the next revision, which shows the tree that lands.
    ensures next { (look : RevisionBytes) (trees : ℕ → TreeFunction) (top : ℕ) (tree : TreeFunction) (marks : List Mark) → IsHandedOver look trees top (N.txn own.now) (N.folder own.now) tree marks rev start items.now
        → IfOk result (λ text. IsFinalText look trees top (N.folder own.now).proto tree marks items.now text.items) }
    // It is no longer than what the transaction holds allows.
    ensures room { (look : RevisionBytes) (trees : ℕ → TreeFunction) (top : ℕ) (tree : TreeFunction) (marks : List Mark) → (is : IsHandedOver look trees top (N.txn own.now) (N.folder own.now) tree marks rev start items.now)
        → IfOk result (λ text. IsWithinRoom is.draft.shows.own items.now text.items) }
    // Of such a transaction memory alone may lack, or a path of it is past a limit.
    ensures whole { (look : RevisionBytes) (trees : ℕ → TreeFunction) (top : ℕ) (tree : TreeFunction) (marks : List Mark) → IsHandedOver look trees top (N.txn own.now) (N.folder own.now) tree marks rev start items.now
        → IfErr result (IsRefused ⊥ (HasPathPast (N.folder own.now) items.now)) }
    // Whatever the folder holds.
    ensures refused { IfErr result (IsRefused (Unit {0}) (HasPathPast (N.folder own.now) items.now)) }
{
    let order = own_nodes(alloc, own)?;
    let mut out = Vec::new(alloc);
    let ids = put_all(alloc, order, &mut out, rev, start)?;
    let Some(offset) = root_offset(alloc, &ids) else {
        return Err(FinalError::Lacking);
    };
    let name = own.name();
    let changes = final_items(alloc, items, &name, &ids)?;
    put_end(alloc, &mut out, start, offset, changes.as_slice())?;
    Ok(out)
}

/// Writes them. Where the sink fails, a first part of them was written; no other failure leaves a byte.
pub fn final_bytes<N: Own, S: Sink>(
    alloc: Global,
    own: &N,
    items: &[ChangeItem],
    rev: RevNum,
    start: u64,
    sink: &mut S,
) -> Result<(), FinalError>
    ensures written { (look : RevisionBytes) (trees : ℕ → TreeFunction) (top : ℕ) (tree : TreeFunction) (marks : List Mark) → (is : IsHandedOver look trees top (N.txn own.now) (N.folder own.now) tree marks rev start items.now)
        → IsWrittenText (λ text. IsFinalText look trees top (N.folder own.now).proto tree marks items.now text × IsWithinRoom is.draft.shows.own items.now text) (S.written sink.old) (S.written sink.new) result }
    // Whatever the folder holds.
    ensures limit { IfErr result (IfPastLimit (HasPathPast (N.folder own.now) items.now)) }
    ensures unwritten { IfErr result (λ e. IfUnwritten e (S.written sink.new ≡ S.written sink.old)) }
    ensures cause { HasSinkCause (S.faults sink.old) (S.faults sink.new) result }
{
    let text = final_text(alloc, own, items, rev, start)?;
    print(sink, text.as_slice())?;
    Ok(())
}
