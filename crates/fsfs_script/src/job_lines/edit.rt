//! What one command of a job does.
use crate::job_lines::texts::Text;
use fsfs_base::{FsPath, PropName};

/// An edit of a transaction.
#[derive(Drop)]
pub enum Edit {
    /// `mkdir`: a new directory.
    MakeDir(FsPath),
    /// `mkfile`: a new file without a text.
    MakeFile(FsPath),
    /// `rm`: what stands at the path is taken away, with all below it.
    Delete(FsPath),
    /// `copy` and `to`.
    Copy(CopyFrom),
    /// `put`: a file's text, and the file itself where nothing stands at the path.
    Put(PutText),
    /// `prop` and `unprop`.
    Prop(SetProp),
}

/// What stood at a path in a revision comes to stand at another.
#[derive(Drop)]
pub struct CopyFrom {
    /// The revision's number, as it is written: there may be no such revision.
    pub rev: u64,
    pub from: FsPath,
    pub to: FsPath,
}

/// A file gets a text.
#[derive(Drop)]
pub struct PutText {
    pub path: FsPath,
    pub text: Text,
}

/// A property gets a value, or is taken away.
#[derive(Drop)]
pub struct SetProp {
    pub path: FsPath,
    pub name: PropName,
    /// None takes it away.
    pub value: Option<Text>,
}
