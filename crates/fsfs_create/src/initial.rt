// The files of a new repository.
ghost use Rattle.std.specs.Prelude.{◌≡◌, ◌<◌, ◌++◌, ◌∷◌, [], length, map, IfOk, OnOk};
ghost use Rattle.fsfs_create.specs.NewFiles.{named};
ghost use Rattle.fsfs_layout.specs.Layouts.{Packs};
ghost use Rattle.fsfs_layout.specs.CreatedFiles.{unpublished_files, date_properties, identifier_text as text_of_identifier};

use crate::first_revision::write_first_revision;
use fsfs_base::{B36, Name, Pairs, RevNum};
use fsfs_layout::{
    Layout, OnlyFile, RepositoryFile, Uuid as Identifier, write_current, write_hash,
    write_min_unpacked_rev, write_txn_current, write_uuid,
};
use std::alloc::{AllocError, Global};
use uuid::Uuid;

/// A file to be written.
#[derive(Drop)]
pub struct NewFile {
    pub name: Name,
    pub bytes: Vec<u8>,
}

// Adds a file to a list.
fn add(files: &mut Vec<NewFile>, name: Name, bytes: Vec<u8>) -> Result<(), AllocError>
    ensures { OnOk result (map named files.new.items ≡ map named files.old.items ++ (name, bytes.items) ∷ []) }
{
    files.push(NewFile { name, bytes })?;
    Ok(())
}

// The identifier as `db/uuid` has it.
fn identifier_of(identifier: Uuid) -> Identifier
    ensures { result ≡ text_of_identifier identifier }
{
    let mut buffer = Uuid::encode_buffer();
    let text = identifier.hyphenated().encode_lower(&mut buffer);
    let mut bytes = [0; 36];
    bytes.copy_from_slice(text.as_bytes());
    Identifier::new(bytes)
}

// The property list of revision 0.
fn properties(alloc: Global, date: &[u8]) -> Result<Vec<u8>, AllocError>
    requires { length date.now ≡ 27 }
    ensures { IfOk result (λ t. t.items ≡ date_properties date.now) }
{
    let name = Vec::from_slice(alloc, b"svn:date")?;
    let value = Vec::from_slice(alloc, date)?;
    let mut pairs = Pairs::new(alloc);
    pairs.set(name, value)?;
    write_hash(alloc, &pairs)
}

/// All files of a new repository but `db/format`, from its identifier, its layout and the text of its date.
pub fn created_files(
    alloc: Global,
    identifier: Uuid,
    layout: Layout,
    date: &[u8],
) -> Result<Vec<NewFile>, AllocError>
    requires date { length date.now ≡ 27 }
    requires packs { Packs layout }
    ensures { IfOk result (λ files. map named files.items ≡ unpublished_files (text_of_identifier identifier) date.now) }
{
    let version = Vec::from_slice(alloc, b"5\n")?;
    let fs_type = Vec::from_slice(alloc, b"fsfs\n")?;
    let uuid = write_uuid(alloc, &identifier_of(identifier))?;
    let current = write_current(alloc, RevNum::ZERO)?;
    let txn_current = write_txn_current(alloc, &B36 { number: 0 })?;
    let floor = write_min_unpacked_rev(alloc, layout, RevNum::ZERO)?;
    let revision = write_first_revision(alloc)?;
    let props = properties(alloc, date)?;
    let mut files = Vec::new(alloc);
    add(&mut files, OnlyFile::RepositoryFormat.name(), version)?;
    add(&mut files, OnlyFile::FsType.name(), fs_type)?;
    add(&mut files, OnlyFile::Uuid.name(), uuid)?;
    add(&mut files, OnlyFile::Current.name(), current)?;
    add(&mut files, OnlyFile::TxnCurrent.name(), txn_current)?;
    add(&mut files, OnlyFile::MinUnpackedRev.name(), floor)?;
    add(&mut files, OnlyFile::WriteLock.name(), Vec::new(alloc))?;
    add(&mut files, OnlyFile::TxnCurrentLock.name(), Vec::new(alloc))?;
    add(
        &mut files,
        RepositoryFile::Revision(RevNum::ZERO).name(layout),
        revision,
    )?;
    add(
        &mut files,
        RepositoryFile::Props(RevNum::ZERO).name(layout),
        props,
    )?;
    Ok(files)
}
