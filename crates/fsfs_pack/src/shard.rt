//! Shards that are full and not packed.
ghost use Rattle.std.specs.Prelude.{◌≡◌, MatchOption};
ghost use Rattle.fsfs_layout.specs.Layouts.{shard_of, place_in_shard};
ghost use Rattle.fsfs_pack.specs.Shards.{IsNoneThere, IsFull};

use fsfs_base::RevNum;
use fsfs_layout::Layout;

/// A shard that is full: its first revision, and that of the next one, which is the floor above it.
#[derive(Clone, Copy)]
pub(crate) struct Shard {
    pub(crate) layout: Layout,
    pub(crate) first: RevNum,
    pub(crate) next: RevNum,
}

impl Shard {
    /// The shard at the floor, where it is full. One behind which no revision can come is never full, and where the layout doesn't pack
    /// none is.
    pub(crate) fn at(layout: Layout, floor: RevNum, youngest: RevNum) -> Option<Shard>
        requires whole { place_in_shard layout floor ≡ 0 }
        ensures { MatchOption result (IsNoneThere layout floor youngest) (IsFull layout floor youngest) }
    {
        if !layout.packs() {
            return None;
        }
        let next = RevNum::new(floor.get() as u64 + layout.shard_size() as u64)?;
        if next.get() as u64 <= youngest.get() as u64 + 1 {
            Some(Shard {
                layout,
                first: floor,
                next,
            })
        } else {
            None
        }
    }

    /// Its number.
    pub(crate) fn number(&self) -> u32
        ensures { result ≡ shard_of self.now.layout self.now.first }
    {
        self.layout.shard_of(self.first)
    }
}
