//! One revision.
ghost use Rattle.std.specs.Prelude.{◌+◌, Ok, option_map};
ghost use Rattle.fsfs_revision.specs.Damage.Causes.{HasCause};
ghost use Rattle.fsfs_revision.specs.RevProps.{ReadsOnly};
ghost use Rattle.fsfs_revision.specs.Shows.Reading.{RootOf};
ghost use Rattle.fsfs_revision.specs.Told.{RevisionBytes, Knows, Keeps};
ghost use Rattle.fsfs_verify.specs.AllWritten.{HoldsWritten};
ghost use Rattle.fsfs_sound.specs.Damaged.{IsDamaged};
ghost use Rattle.fsfs_verify.specs.Finds.{Finds};
ghost use Rattle.fsfs_sound.specs.Revisions.{IsSoundRevision, AreSoundBefore};
ghost use Rattle.fsfs_verify.specs.Roots.{IsLastRoot};

use crate::items::check_items;
use crate::nodes::check_tree;
use crate::parts::Parts;
use crate::props::check_rev_props;
use fsfs_base::RevNum;
use fsfs_dag::PlacedNode;
use fsfs_revision::{ReadError, StillProps};
use std::alloc::Global;
use std::thread::Threads;

/// All that a revision wrote: its tree, its changed paths and its property file. Answers its root; `last` is the root of the one
/// before.
pub(crate) fn check_revision<R: Threads, B: StillProps>(
    rt: &R,
    alloc: Global,
    book: &mut B,
    rev: RevNum,
    parts: &mut Parts,
    last: Option<&PlacedNode>,
) -> Result<PlacedNode, ReadError>
    ensures told { (look props : RevisionBytes) → Knows (B.told book.old).revs rev look → ReadsOnly (B.may_read book.old) rev props → AreSoundBefore look props rev → HoldsWritten look rev parts.old → IsLastRoot look rev (option_map (λ v. v.now.node) last.entry)
        → Finds (λ root. IsSoundRevision look props rev × RootOf look rev (Ok root.node) × HoldsWritten look (rev + 1) parts.new) (IsDamaged look props rev) result }
    ensures kept { Keeps (B.told book.old) (B.told book.new) }
    ensures cause { HasCause (B.faults book.old) (B.faults book.new) result }
{
    let root = check_tree(rt, alloc, book, rev, parts, last)?;
    check_items(alloc, book, rev, &root)?;
    check_rev_props(alloc, book, rev)?;
    parts.end_revision();
    Ok(root)
}
