//! The files of a transaction. (The libsvn_fs_fs structure file.)
ghost use Rattle.std.specs.Prelude.{◌≡◌};
ghost use Rattle.fsfs_layout.specs.FileNames.{txn_file_name};

use crate::names::{in_txn, proto_revision, proto_revision_lock, txn_folder};
use crate::part_name::PartName;
use fsfs_base::{Name, TxnName};

/// A file or folder of a transaction.
#[derive(Drop)]
pub enum TxnFile {
    /// Its folder.
    Folder,
    /// A file in its folder.
    Part(PartName),
    /// Its prototype revision file.
    ProtoRevision,
    /// The lock file beside its prototype revision file.
    ProtoRevisionLock,
}

impl TxnFile {
    /// The file's name, from the repository's folder on.
    pub fn name(&self, txn: &TxnName) -> Name
        ensures { result ≡ txn_file_name txn.now self.now }
    {
        match self {
            TxnFile::Folder => txn_folder(txn),
            TxnFile::Part(part) => in_txn(txn, part),
            TxnFile::ProtoRevision => proto_revision(txn),
            TxnFile::ProtoRevisionLock => proto_revision_lock(txn),
        }
    }
}
