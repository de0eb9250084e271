// The type has a file of its own, so that its ghost field imports no more than it names.
ghost use Rattle.std.specs.Prelude.{◌≡◌};

use fsfs_base::{Note, RevNum};
use fsfs_disk::Disk;
use fsfs_layout::Layout;
use fsfs_pass::Board;

/// A repository that passes share: the table at which they sit, how the files are laid out, the floor that the opening read, and the disk as
/// it was first, which clauses alone read.
#[derive(Drop)]
pub struct SharedRepo<D: Disk> {
    pub(crate) board: Board<D>,
    pub(crate) layout: Layout,
    pub(crate) floor: RevNum,
    pub(crate) first: Note<D>,
    ghost sized: { (board.shared.table_id.words ≡ 3) × (board.shared.table_id.slots ≡ 1) },
}
