//! A small file that is not in its format.

/// A small file of a repository.
#[derive(Clone, Copy, Debug, PartialEq, Eq)]
pub enum SmallFile {
    /// `db/format`.
    Format,
    /// `db/uuid`.
    Uuid,
    /// `db/current`.
    Current,
    /// `db/min-unpacked-rev`.
    MinUnpackedRev,
    /// `db/txn-current`.
    TxnCurrent,
    /// `next-ids` in a transaction's folder.
    NextIds,
    /// `db/revs/<shard>.pack/manifest` of this shard.
    Manifest(u32),
}

/// A small file is not in its format, from the byte `at` on: the first after which no text of the format goes on,
/// or the file's length where it ends too early.
#[derive(Clone, Copy, Debug, PartialEq, Eq)]
pub struct SmallFault {
    pub file: SmallFile,
    pub at: usize,
}
