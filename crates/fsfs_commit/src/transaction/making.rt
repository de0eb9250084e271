//! All that is written of a revision beside its own file.
ghost use Rattle.std.specs.Prelude.{◌≡◌, IfOk};
ghost use Rattle.fsfs_layout.specs.Hash.Dump.{IsDump};
ghost use Rattle.fsfs_layout.specs.FileNames.{file_name};
ghost use Rattle.fsfs_layout.specs.Layouts.{shard_of};
ghost use Rattle.fsfs_layout.specs.Small.{IsRevLine};
ghost use Rattle.fsfs_layout.specs.declared.repository_file.RepositoryFile.TheVariants as file;
ghost use Rattle.fsfs_commit.specs.Transaction.Folders.{new_shard};

use crate::Made;
use fsfs_base::{Name, Pairs, RevNum};
use fsfs_layout::{Layout, RepositoryFile, write_current, write_hash};
use std::alloc::{AllocError, Global};

// The folder of a shard, where this revision is its first.
fn new_folder(layout: Layout, rev: RevNum, folder: RepositoryFile) -> Option<Name>
    ensures { result ≡ new_shard layout rev folder }
{
    if layout.place_in_shard(rev) == 0 {
        Some(folder.name(layout))
    } else {
        None
    }
}

/// What is written of a revision beside its own file, with the folders that it is the first to want.
pub(crate) fn make_rest(
    alloc: Global,
    layout: Layout,
    rev: RevNum,
    properties: &Pairs,
) -> Result<Made, AllocError>
    ensures rev { IfOk result (λ made. made.rev ≡ rev) }
    ensures rev_file { IfOk result (λ made. made.rev_file ≡ file_name layout (file.Revision rev)) }
    ensures props_file { IfOk result (λ made. made.props_file ≡ file_name layout (file.Props rev)) }
    ensures rev_folder { IfOk result (λ made. made.rev_folder ≡ new_shard layout rev (file.Shard (shard_of layout rev))) }
    ensures props_folder { IfOk result (λ made. made.props_folder ≡ new_shard layout rev (file.PropsShard (shard_of layout rev))) }
    ensures dump { IfOk result (λ made. IsDump made.properties.items properties.now) }
    ensures line { IfOk result (λ made. IsRevLine made.current.items rev) }
{
    let dump = write_hash(alloc, properties)?;
    let current = write_current(alloc, rev)?;
    let shard = layout.shard_of(rev);
    Ok(Made {
        rev,
        rev_file: RepositoryFile::Revision(rev).name(layout),
        rev_folder: new_folder(layout, rev, RepositoryFile::Shard(shard)),
        props_file: RepositoryFile::Props(rev).name(layout),
        props_folder: new_folder(layout, rev, RepositoryFile::PropsShard(shard)),
        properties: dump,
        current,
    })
}
