//! Where a representation stands.
ghost use Rattle.std.specs.Prelude.{◌≡◌};
ghost use Rattle.fsfs_revision.specs.declared.wrong.ReadError.TheVariants.{Wrong};
ghost use Rattle.fsfs_revision.specs.Rep.Frames.{rep_place, bad_rep as bad};

use crate::{DamageKind, ReadError, RepWhat, RevOffset};
use fsfs_base::RevNum;
use fsfs_noderev::Rep;

/// Where the header of a representation of a committed revision is to begin: a revision and a byte of it.
pub fn rep_place(rep: &Rep) -> RevOffset
    ensures { result ≡ rep_place rep.now }
{
    RevOffset {
        rev: rep.rev.unwrap_or(RevNum::ZERO),
        offset: rep.offset,
    }
}

/// Damage of this representation.
pub fn bad_rep(rep: &Rep, what: RepWhat) -> ReadError
    ensures { result ≡ Wrong (bad rep.now what) }
{
    ReadError::damaged(rep_place(rep), DamageKind::Rep(what))
}
