//! The folders that the files of revisions stand in.

/// The folders that the files of revisions stand in. (The libsvn_fs_fs structure file.)
#[derive(Clone, Copy, Debug, PartialEq, Eq)]
pub enum Folders {
    /// Shards: folders of so many revisions each, from 1 to 2,147,483,647.
    Shards(u32),
    /// One folder of all revisions: the linear layout.
    OneFolder,
}
