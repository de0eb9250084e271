//! The items of a revision's changed-path data.
ghost use Rattle.fsfs_revision.specs.Damage.Causes.{HasCause, IsQuiet};
ghost use Rattle.fsfs_revision.specs.Damage.Readings.{Answers};
ghost use Rattle.fsfs_revision.specs.Told.{RevisionBytes, Keeps, IsTold};
ghost use Rattle.fsfs_noderev.specs.Changes.Texts.{HasNewPath, IsItemFault};
ghost use Rattle.fsfs_stands.specs.Items.{ItemsIn, ItemsOf};

use crate::data::{ChangesData, changes_data};
use fsfs_base::RevNum;
use fsfs_noderev::{ChangeError, ChangeItem, read_revision_changes};
use fsfs_revision::{Book, Damage, DamageKind, ReadError, RevOffset, Wrong};
use std::alloc::Global;

/// The items of a revision in the order of its data, and what is wrong behind them, where something is.
#[derive(Drop)]
pub struct ReadItems {
    pub items: Vec<ChangeItem>,
    pub wrong: Option<Wrong>,
}

// The items before the one that is refused, which begins here.
fn items_before(
    alloc: Global,
    rev: RevNum,
    changes: &ChangesData,
    at: usize,
) -> Result<ReadItems, ReadError>
    requires { IsItemFault HasNewPath changes.now.bytes.items at }
    ensures told { Answers (λ r. (r.items.items, r.wrong)) (ItemsIn rev (changes.now.begins, changes.now.bytes.items)) result }
    ensures quiet { IsQuiet result }
{
    let Some(offset) = changes.begins.checked_add(at as u64) else {
        return Err(ReadError::OutOfMemory);
    };
    match read_revision_changes(alloc, &changes.bytes[..at]) {
        Ok(items) => Ok(ReadItems {
            items,
            wrong: Some(Wrong::Damaged(Damage {
                at: RevOffset { rev, offset },
                what: DamageKind::Changes,
            })),
        }),
        Err(_) => Err(ReadError::OutOfMemory),
    }
}

fn items_in(alloc: Global, rev: RevNum, changes: &ChangesData) -> Result<ReadItems, ReadError>
    ensures told { Answers (λ r. (r.items.items, r.wrong)) (ItemsIn rev (changes.now.begins, changes.now.bytes.items)) result }
    ensures quiet { IsQuiet result }
{
    match read_revision_changes(alloc, &changes.bytes) {
        Ok(items) => Ok(ReadItems { items, wrong: None }),
        Err(ChangeError::OutOfMemory) => Err(ReadError::OutOfMemory),
        Err(ChangeError::Fault(fault)) => items_before(alloc, rev, changes, fault.at),
    }
}

/// The items of a revision. Where one is refused, those before it, and the damage at its place.
pub fn items_of<B: Book>(alloc: Global, book: &mut B, rev: RevNum) -> Result<ReadItems, ReadError>
    ensures told { (look : RevisionBytes) → IsTold (B.told book.old) look rev → Answers (λ r. (r.items.items, r.wrong)) (ItemsOf look rev) result }
    ensures kept { Keeps (B.told book.old) (B.told book.new) }
    ensures cause { HasCause (B.faults book.old) (B.faults book.new) result }
{
    let changes = changes_data(alloc, book, rev)?;
    items_in(alloc, rev, &changes)
}
