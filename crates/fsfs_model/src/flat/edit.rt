//! The edits of a transaction.
use fsfs_base::{FsPath, PropName, RevNum};

/// One edit of a transaction, with its arguments.
#[derive(Drop)]
pub enum Edit {
    /// Makes an empty directory.
    MakeDir {
        path: FsPath,
    },
    /// Makes an empty file.
    MakeFile {
        path: FsPath,
    },
    /// Takes away what stands at the path, with all below it.
    Delete {
        path: FsPath,
    },
    /// Puts at `to` what stands at and below `from` in revision `rev`.
    Copy {
        rev: RevNum,
        from: FsPath,
        to: FsPath,
    },
    /// Replaces a file's text.
    PutText {
        path: FsPath,
        text: Vec<u8>,
    },
    /// Sets a property, or removes it where there is no value.
    SetProp {
        path: FsPath,
        name: PropName,
        value: Option<Vec<u8>>,
    },
}
