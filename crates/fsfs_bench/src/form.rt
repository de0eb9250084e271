//! What a file is read as.
use anyhow::{Result, bail};
use fsfs_layout::{read_hash, read_hash_in_place};
use fsfs_noderev::{read_changes, read_revision_changes};
use std::alloc::Global;

#[derive(Clone, Copy)]
pub(crate) enum Form {
    /// A hash dump, as properties are read.
    Dump,
    /// The same, as the entries of a directory are read.
    List,
    /// Changed-path data, as a transaction has it.
    Changes,
    /// The same, as a revision has it.
    Revision,
    /// The text of a representation.
    Text,
    /// A hash dump, written.
    PutDump,
    /// Changed-path data, written.
    PutChanges,
}

pub(crate) fn form_of(word: &str) -> Option<Form> {
    match word {
        "dump" => Some(Form::Dump),
        "list" => Some(Form::List),
        "changes" => Some(Form::Changes),
        "revision" => Some(Form::Revision),
        "text" => Some(Form::Text),
        "put-dump" => Some(Form::PutDump),
        "put-changes" => Some(Form::PutChanges),
        _ => None,
    }
}

impl Form {
    /// How many things are read; of the forms that are not read here their bytes.
    pub(crate) fn read(self, alloc: Global, bytes: &[u8]) -> Result<usize> {
        match self {
            Form::Dump => match read_hash(alloc, bytes) {
                Ok(pairs) => Ok(pairs.as_map().len()),
                Err(_) => bail!("the dump is refused"),
            },
            Form::List => match read_hash_in_place(alloc, bytes) {
                Ok(pairs) => Ok(pairs.len()),
                Err(_) => bail!("the list is refused"),
            },
            Form::Changes => match read_changes(alloc, bytes) {
                Ok(items) => Ok(items.len()),
                Err(_) => bail!("the changes are refused"),
            },
            Form::Revision => match read_revision_changes(alloc, bytes) {
                Ok(items) => Ok(items.len()),
                Err(_) => bail!("the revision's changes are refused"),
            },
            Form::Text | Form::PutDump | Form::PutChanges => Ok(bytes.len()),
        }
    }
}
