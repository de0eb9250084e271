//! The files and folders that a repository has once. (The libsvn_fs_fs structure file; the names that end in `-next`, under which
//! the new text of a small file is written first, are this project's profile.)
ghost use Rattle.std.specs.Prelude.{◌≡◌};
ghost use Rattle.fsfs_layout.specs.FileNames.{only_name};

use fsfs_base::Name;

/// A file or folder that a repository has once.
#[derive(Clone, Copy)]
pub enum OnlyFile {
    /// `format`: the file that says which version of the repository's own layout it has.
    RepositoryFormat,
    /// `db/format`.
    Format,
    /// `db/format-next`: where the new text of `db/format` is written first.
    FormatNext,
    /// `db/fs-type`.
    FsType,
    /// `db/uuid`.
    Uuid,
    /// `db/current`: the file with the youngest revision.
    Current,
    /// `db/current-next`: where the new text of `db/current` is written first.
    CurrentNext,
    /// `db/min-unpacked-rev`: the file with the oldest revision that isn't packed.
    MinUnpackedRev,
    /// `db/min-unpacked-rev-next`: where the new text of `db/min-unpacked-rev` is written first.
    MinUnpackedRevNext,
    /// `db/txn-current`: the file with the number that the next transaction gets.
    TxnCurrent,
    /// `db/txn-current-next`: where the new text of `db/txn-current` is written first.
    TxnCurrentNext,
    /// `db/txn-current-lock`.
    TxnCurrentLock,
    /// `db/write-lock`.
    WriteLock,
    /// `db/revs`: the folder of the shards of revision files.
    Revisions,
    /// `db/revprops`: the folder of the shards of revision property files.
    RevisionProps,
    /// `db/transactions`: the folder of the folders of transactions.
    Transactions,
    /// `db/txn-protorevs`: the folder of the prototype revision files of transactions.
    ProtoRevisions,
}

impl OnlyFile {
    /// Its name, from the repository's folder on.
    pub fn name(self) -> Name
        ensures { result ≡ only_name self }
    {
        match self {
            OnlyFile::RepositoryFormat => Name::new("format"),
            OnlyFile::Format => Name::new("db/format"),
            OnlyFile::FormatNext => Name::new("db/format-next"),
            OnlyFile::FsType => Name::new("db/fs-type"),
            OnlyFile::Uuid => Name::new("db/uuid"),
            OnlyFile::Current => Name::new("db/current"),
            OnlyFile::CurrentNext => Name::new("db/current-next"),
            OnlyFile::MinUnpackedRev => Name::new("db/min-unpacked-rev"),
            OnlyFile::MinUnpackedRevNext => Name::new("db/min-unpacked-rev-next"),
            OnlyFile::TxnCurrent => Name::new("db/txn-current"),
            OnlyFile::TxnCurrentNext => Name::new("db/txn-current-next"),
            OnlyFile::TxnCurrentLock => Name::new("db/txn-current-lock"),
            OnlyFile::WriteLock => Name::new("db/write-lock"),
            OnlyFile::Revisions => Name::new("db/revs"),
            OnlyFile::RevisionProps => Name::new("db/revprops"),
            OnlyFile::Transactions => Name::new("db/transactions"),
            OnlyFile::ProtoRevisions => Name::new("db/txn-protorevs"),
        }
    }
}
