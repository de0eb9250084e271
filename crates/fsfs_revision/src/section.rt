//! Parts of files.

/// A part of a file, as a revision is a part of its shard's pack: where it begins and how long it is, in bytes.
#[derive(Clone, Copy)]
pub struct Section {
    pub start: u64,
    pub length: u64,
}
