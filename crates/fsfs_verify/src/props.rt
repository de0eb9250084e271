//! The property file of a revision.
ghost use Rattle.fsfs_revision.specs.Damage.Causes.{HasCause};
ghost use Rattle.fsfs_revision.specs.RevProps.{ReadsOnly};
ghost use Rattle.fsfs_revision.specs.Told.{RevisionBytes, Keeps};
ghost use Rattle.fsfs_sound.specs.Damaged.{IsDamaged};
ghost use Rattle.fsfs_verify.specs.Finds.{Finds};
ghost use Rattle.fsfs_sound.specs.Revisions.{HasSoundProps};

use fsfs_base::{RevNum, read_date};
use fsfs_look::rev_props;
use fsfs_revision::{DamageKind, ReadError, RevOffset, RevProps};
use std::alloc::Global;

/// The property file of a revision: it is a dump, else Props, and a date in it is in the form of stored dates, else BadDate.
pub(crate) fn check_rev_props<B: RevProps>(
    alloc: Global,
    book: &mut B,
    rev: RevNum,
) -> Result<(), ReadError>
    ensures told { (look props : RevisionBytes) → ReadsOnly (B.may_read book.old) rev props → Finds (λ _. HasSoundProps props rev) (IsDamaged look props rev) result }
    ensures kept { Keeps (B.told book.old) (B.told book.new) }
    ensures cause { HasCause (B.faults book.old) (B.faults book.new) result }
{
    let pairs = rev_props(alloc, book, rev)?;
    match pairs.get(b"svn:date") {
        None => Ok(()),
        Some(stored) => match read_date(stored) {
            Some(_) => Ok(()),
            None => Err(ReadError::damaged(RevOffset { rev, offset: 0 }, DamageKind::BadDate)),
        },
    }
}
