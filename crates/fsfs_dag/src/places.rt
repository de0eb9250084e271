//! Where node-revisions stand.
ghost use Rattle.std.specs.Prelude.{◌≡◌};
ghost use Rattle.fsfs_revision.specs.Shows.Reading.{offset_of};

use fsfs_base::RevNum;
use fsfs_noderev::Place;
use fsfs_revision::RevOffset;

/// Where a node-revision stands by the place of its id.
pub(crate) fn offset_of(place: Place) -> RevOffset
    ensures { result ≡ offset_of place }
{
    match place {
        Place::At(rev, offset) => RevOffset { rev, offset },
        Place::In(_) => RevOffset {
            rev: RevNum::ZERO,
            offset: 0,
        },
    }
}
