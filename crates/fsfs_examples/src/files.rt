// The files of a repository, and disks with them. A transaction is the file of its folder's name, without bytes.
use anyhow::{Result, anyhow, bail};
use fsfs_base::{Failed, Name, TxnName, read_txn_name};
use fsfs_disk::{Disk, Label};
use fsfs_layout::TxnFile;
use fsfs_memory::MemDisk;
use std::alloc::{AllocError, Global};
use std::collections::BTreeMap;

/// The bytes of each file, by its name.
pub type Files = BTreeMap<String, Vec<u8>>;

fn name_of(text: &str) -> Result<Name> {
    if text.len() > 128 {
        bail!("too long a name");
    }
    Ok(Name::new(text))
}

// The transaction whose folder has this name, if it is one's.
fn txn_at(name: &str) -> Option<TxnName> {
    let entry = name.strip_prefix("db/transactions/")?;
    read_txn_name(entry.strip_suffix(".txn")?.as_bytes())
}

// Puts a file on the disk, or begins a transaction.
fn add_file(disk: &mut MemDisk, name: &str, bytes: &[u8]) -> Result<()> {
    let added = match txn_at(name) {
        Some(txn) => match disk.bench(&Label::Txn(txn)) {
            Ok(_) => Ok(()),
            Err(failed) => Err(failed),
        },
        None => disk.put(&name_of(name)?, bytes),
    };
    added.map_err(|_: Failed| anyhow!("no such disk"))
}

/// A disk with these files, all of them firm.
pub fn firm_disk(alloc: Global, files: &Files) -> Result<MemDisk> {
    let mut disk = MemDisk::new(alloc);
    for (name, bytes) in files.iter() {
        add_file(&mut disk, name.as_str(), bytes)?;
    }
    disk.firm_names()
        .map_err(|_: Failed| anyhow!("no such disk"))?;
    Ok(disk)
}

/// The files of a disk, and its transactions.
pub fn files_of(alloc: Global, disk: &MemDisk) -> Result<Files, AllocError> {
    let mut files = BTreeMap::new(alloc);
    for (name, bytes) in disk.files(alloc)? {
        let name = String::from_str(alloc, name)?;
        files.insert(name, Vec::from_slice(alloc, bytes)?)?;
    }
    for label in disk.labels() {
        if let Label::Txn(txn) = label {
            let name = String::from_str(alloc, TxnFile::Folder.name(txn).as_str())?;
            files.insert(name, Vec::new(alloc))?;
        }
    }
    Ok(files)
}

/// The same files once more.
pub fn copy_of(alloc: Global, files: &Files) -> Result<Files, AllocError> {
    let mut copy = BTreeMap::new(alloc);
    for (name, bytes) in files.iter() {
        let name = String::from_str(alloc, name.as_str())?;
        copy.insert(name, Vec::from_slice(alloc, bytes)?)?;
    }
    Ok(copy)
}
