//! The files and folders of a repository, with their names from the repository's folder on. (The libsvn_fs_fs structure file.)
ghost use Rattle.std.specs.Prelude.{◌≡◌};
ghost use Rattle.fsfs_layout.specs.FileNames.{file_name, small_name, NamesAreApart};

use crate::layout::Layout;
use crate::names;
use crate::only_file::OnlyFile;
use crate::txn_file::TxnFile;
use fsfs_base::{Name, RevNum, SmallFile, TxnName};

/// A file or folder of a repository.
#[derive(Drop)]
pub enum RepositoryFile {
    /// One that a repository has once.
    Only(OnlyFile),
    /// The folder of a shard's revision files, by the shard's number.
    Shard(u32),
    /// A revision's file, before it is packed.
    Revision(RevNum),
    /// The folder of a packed shard.
    PackFolder(u32),
    /// The revision files of a packed shard, one after another.
    Pack(u32),
    /// Where each revision begins in the pack of its shard.
    Manifest(u32),
    /// The folder of a shard's revision property files.
    PropsShard(u32),
    /// The file of a revision's properties.
    Props(RevNum),
    /// One of a transaction.
    OfTxn(TxnName, TxnFile),
}

impl RepositoryFile {
    /// Its name in a repository that is laid out so.
    pub fn name(&self, layout: Layout) -> Name
        ensures { result ≡ file_name layout self.now }
    {
        match self {
            RepositoryFile::Only(file) => file.name(),
            RepositoryFile::Shard(shard) => names::shard(*shard),
            RepositoryFile::Revision(rev) => names::revision(layout, *rev),
            RepositoryFile::PackFolder(shard) => names::pack_folder(*shard),
            RepositoryFile::Pack(shard) => names::pack(*shard),
            RepositoryFile::Manifest(shard) => names::manifest(*shard),
            RepositoryFile::PropsShard(shard) => names::props_shard(*shard),
            RepositoryFile::Props(rev) => names::props(layout, *rev),
            RepositoryFile::OfTxn(txn, file) => file.name(txn),
        }
    }
}

/// The name of a small file that can be damaged; of a transaction's `next-ids` the last part.
pub fn small_file_name(file: &SmallFile) -> Name
    ensures { result ≡ small_name file.now }
{
    match *file {
        SmallFile::Format => OnlyFile::Format.name(),
        SmallFile::Uuid => OnlyFile::Uuid.name(),
        SmallFile::Current => OnlyFile::Current.name(),
        SmallFile::MinUnpackedRev => OnlyFile::MinUnpackedRev.name(),
        SmallFile::TxnCurrent => OnlyFile::TxnCurrent.name(),
        SmallFile::NextIds => Name::new("next-ids"),
        SmallFile::Manifest(shard) => names::manifest(shard),
    }
}

/// A law: no two files or folders of a repository have one name, whatever its layout.
pub fn names_are_apart(layout: Layout)
    ensures { NamesAreApart layout }
{
    let _ = layout;
}
