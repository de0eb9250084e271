//! The format of a repository's filesystem.

/// The format of a repository's filesystem, of those that are spoken of here. (The libsvn_fs_fs structure file.)
#[derive(Clone, Copy, Debug, PartialEq, Eq)]
pub enum Format {
    /// Format 3. No shard is packed: it has no `db/min-unpacked-rev`.
    Three,
    /// Format 4. Shards can be packed.
    Four,
}
