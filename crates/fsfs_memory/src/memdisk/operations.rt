// The operations that a disk in memory keeps.
ghost use Rattle.std.specs.Prelude.{◌≡◌, OnOk, OnErr, IfOk};
ghost use Rattle.fsfs_disk.specs.Trace.{changed, relabelled};
ghost use Rattle.fsfs_memory.specs.Memdisk.MemFiles.{content};

use crate::memdisk::files::{Bytes, MemFiles};
use crate::memdisk::labels::{keep_label, without_label};
use fsfs_base::Name;
use fsfs_disk::Label;
use std::alloc::{AllocError, Global};
use std::collections::VecDeque;
use std::sync::Arc;

/// A file: its name and its bytes.
#[derive(Drop)]
pub struct MemFile {
    pub name: Name,
    pub bytes: Bytes,
}

/// A change of names or labels.
#[derive(Drop)]
pub enum MemChange {
    Put(MemFile),
    Adopt(MemFile),
    /// From the first name to the second.
    Rename(Name, Name),
    Remove(Name),
    FirmNames,
    KeepLabel(Label),
    DropLabel(Label),
}

/// A change that was done, or only attempted.
#[derive(Drop)]
pub struct MemOperation {
    pub done: bool,
    pub change: MemChange,
}

impl MemFile {
    pub fn new(alloc: Global, name: &Name, bytes: &[u8]) -> Result<MemFile, AllocError>
        ensures name { IfOk result (λ file. file.name ≡ name.now) }
        ensures bytes { IfOk result (λ file. content file.bytes ≡ bytes.now) }
    {
        MemFile::of(alloc, name, Vec::from_slice(alloc, bytes)?)
    }

    pub fn of(alloc: Global, name: &Name, bytes: Vec<u8>) -> Result<MemFile, AllocError>
        ensures name { IfOk result (λ file. file.name ≡ name.now) }
        ensures bytes { IfOk result (λ file. content file.bytes ≡ bytes.items) }
    {
        Ok(MemFile {
            name: name.copy(),
            bytes: Arc::new(alloc, bytes)?,
        })
    }
}

impl MemChange {
    ghost use Rattle.fsfs_memory.specs.Memdisk.Stored.{change_of, labels_of, labels_or};

    /// Makes the change of these files.
    pub fn apply(&self, files: &mut MemFiles) -> Result<(), AllocError>
        ensures ok { OnOk result (files.new ≡ changed (change_of self.now) files.old) }
        ensures err { OnErr result (files.new ≡ files.old) }
    {
        match self {
            MemChange::Put(file) => files.insert(file.name.copy(), file.bytes.clone()?),
            MemChange::Adopt(file) => files.insert(file.name.copy(), file.bytes.clone()?),
            MemChange::Rename(from, to) => {
                let bytes = files.share(from)?;
                files.replace(from, to, bytes)
            }
            MemChange::Remove(name) => {
                files.remove(name);
                Ok(())
            }
            MemChange::FirmNames => Ok(()),
            MemChange::KeepLabel(_) => Ok(()),
            MemChange::DropLabel(_) => Ok(()),
        }
    }

    /// The labels that it leaves of these; none where they stay.
    pub fn relabel(
        &self,
        alloc: Global,
        labels: &VecDeque<Label>,
    ) -> Result<Option<VecDeque<Label>>, AllocError>
        ensures { IfOk result (λ left. labels_or left labels.now.items ≡ relabelled (change_of self.now) (labels_of labels.now.items)) }
    {
        match self {
            MemChange::KeepLabel(label) => Ok(Some(keep_label(alloc, labels, label)?)),
            MemChange::DropLabel(label) => Ok(Some(without_label(alloc, labels, label)?)),
            _ => Ok(None),
        }
    }
}
