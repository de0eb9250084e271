//! What is written into one file, made ready in memory.
ghost use Rattle.std.specs.Prelude.{IfOk};
ghost use Rattle.fsfs_layout.specs.Small.{IsNextIds};
ghost use Rattle.fsfs_noderev.specs.Writing.{HasText as HasNodeText};
ghost use Rattle.fsfs_noderev.specs.Changes.Items.{HasText, IsItem};
ghost use Rattle.fsfs_dag.specs.Views.{entry_values};
ghost use Rattle.fsfs_txn_files.specs.Changes.{IsChange};
ghost use Rattle.fsfs_txn_files.specs.Children.{IsWholeList, IsPutRecord, IsTakenRecord};
ghost use Rattle.fsfs_txn_files.specs.Texts.{IsNodeFile, ArePropsOf};
ghost use Rattle.fsfs_txn_files.specs.declared.folder_file.FolderFile.TheVariants.{NextIds, Changes, Node, Children, Props};
ghost use Rattle.fsfs_txn_files.specs.declared.change.How.TheVariants.{Whole, AtEnd};

use crate::folder_file::FolderFile;
use fsfs_base::{Kind, Pairs};
use fsfs_dag::{DirEntry, entry_dump, entry_text};
use fsfs_layout::{NextIds as NextNumbers, add_entry, drop_entry, write_hash, write_next_ids};
use fsfs_noderev::{ChangeItem, NodeId, NodeRev, put_item, write_noderev};
use std::alloc::{AllocError, Global};

/// Where a text goes.
#[derive(Clone, Copy)]
pub enum How {
    /// It is all of the file, in place of what the file has.
    Whole,
    /// Behind what the file has.
    AtEnd,
}

/// A text that goes into a file. To make it takes memory, and to write it none: so what several files get can be made ready before
/// the first of them is touched.
#[derive(Drop)]
pub struct FileChange {
    pub file: FolderFile,
    pub how: How,
    pub text: Vec<u8>,
}

impl FileChange {
    /// A node-revision.
    pub fn node(alloc: Global, node: &NodeRev) -> Result<FileChange, AllocError>
        requires { HasNodeText node.now }
        ensures { IfOk result (λ c. IsChange c (Node node.now.id) Whole (IsNodeFile node.now)) }
    {
        let text = write_noderev(alloc, node)?;
        Ok(FileChange {
            file: FolderFile::Node(node.id),
            how: How::Whole,
            text,
        })
    }

    /// All entries of a directory; the first of a name counts. With them its `children` file begins.
    pub fn children(
        alloc: Global,
        dir: &NodeId,
        entries: &[DirEntry],
    ) -> Result<FileChange, AllocError>
        ensures { IfOk result (λ c. IsChange c (Children dir.now) Whole (IsWholeList (entry_values entries.now))) }
    {
        let text = entry_dump(alloc, entries)?;
        Ok(FileChange {
            file: FolderFile::Children(*dir),
            how: How::Whole,
            text,
        })
    }

    /// An entry that is put into a directory, in place of the one of its name.
    pub fn put_entry(
        alloc: Global,
        dir: &NodeId,
        name: &str,
        kind: Kind,
        id: &NodeId,
    ) -> Result<FileChange, AllocError>
        ensures { IfOk result (λ c. IsChange c (Children dir.now) AtEnd (IsPutRecord name.now kind id.now)) }
    {
        let value = entry_text(alloc, kind, id)?;
        let mut text = Vec::new(alloc);
        add_entry(&mut text, name.as_bytes(), value.as_slice())?;
        Ok(FileChange {
            file: FolderFile::Children(*dir),
            how: How::AtEnd,
            text,
        })
    }

    /// A name whose entry is taken from a directory.
    pub fn taken_entry(alloc: Global, dir: &NodeId, name: &str) -> Result<FileChange, AllocError>
        ensures { IfOk result (λ c. IsChange c (Children dir.now) AtEnd (IsTakenRecord name.now)) }
    {
        let mut text = Vec::new(alloc);
        drop_entry(&mut text, name.as_bytes())?;
        Ok(FileChange {
            file: FolderFile::Children(*dir),
            how: How::AtEnd,
            text,
        })
    }

    /// All properties of a node-revision.
    pub fn props(alloc: Global, id: &NodeId, pairs: &Pairs) -> Result<FileChange, AllocError>
        ensures { IfOk result (λ c. IsChange c (Props id.now) Whole (ArePropsOf pairs.now)) }
    {
        let text = write_hash(alloc, pairs)?;
        Ok(FileChange {
            file: FolderFile::Props(*id),
            how: How::Whole,
            text,
        })
    }

    /// The numbers that the next new parts get.
    pub fn next_ids(alloc: Global, next: &NextNumbers) -> Result<FileChange, AllocError>
        ensures { IfOk result (λ c. IsChange c NextIds Whole (λ text. IsNextIds text (next.now.node.number, next.now.copy.number))) }
    {
        let text = write_next_ids(alloc, next)?;
        Ok(FileChange {
            file: FolderFile::NextIds,
            how: How::Whole,
            text,
        })
    }

    /// What one edit changed.
    pub fn item(alloc: Global, item: &ChangeItem) -> Result<FileChange, AllocError>
        requires { HasText item.now }
        ensures { IfOk result (λ c. IsChange c Changes AtEnd (λ text. IsItem text item.now)) }
    {
        let mut text = Vec::new(alloc);
        put_item(alloc, &mut text, item)?;
        Ok(FileChange {
            file: FolderFile::Changes,
            how: How::AtEnd,
            text,
        })
    }
}
