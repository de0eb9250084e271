//! What the small files of a repository say together.

use crate::layout::Layout;
use crate::small_files::uuid_file::Uuid;
use fsfs_base::{B36, RevNum};

/// What the small files of a repository say.
#[derive(Drop)]
pub struct Opened {
    pub uuid: Uuid,
    pub layout: Layout,
    pub youngest: RevNum,
    /// The oldest revision that isn't packed: the first of a shard, at most the one that follows the youngest.
    pub min_unpacked_rev: RevNum,
    /// The number that the next transaction gets.
    pub next_txn: B36,
}
