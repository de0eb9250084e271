// The folders whose names a repository stands on. Others may have changed them, and not made them firm.
ghost use Rattle.std.specs.Prelude.{◌≡◌};
ghost use Rattle.fsfs_folders.specs.Standing.{told};

use fsfs_base::{Name, RevNum};
use fsfs_folders::{CallError, Calls, Folders, Modes, Path};
use fsfs_layout::{
    FormatFile, Layout, OnlyFile, RepositoryFile, read_current, read_format, read_min_unpacked_rev,
};
use std::alloc::Global;

// No text of a small file has so many bytes.
const MOST: usize = 64;

// The first bytes of a small file; none where it isn't there.
fn read_small<C: Calls + Drop>(
    alloc: Global,
    folders: &mut Folders<C>,
    file: OnlyFile,
) -> Result<Vec<u8>, CallError>
    ensures { told (C.history folders.new.calls) ≡ told (C.history folders.old.calls) }
{
    let mut buffer = [0; MOST];
    let count = folders
        .read(&file.name(), 0, &mut buffer)?
        .unwrap_or_default();
    Ok(Vec::from_slice(alloc, &buffer[..count])?)
}

// The layout of the repository, if there is one of format 4 in shards: no other is opened.
fn read_layout<C: Calls + Drop>(
    alloc: Global,
    folders: &mut Folders<C>,
) -> Result<Option<Layout>, CallError>
    ensures { told (C.history folders.new.calls) ≡ told (C.history folders.old.calls) }
{
    let text = read_small(alloc, folders, OnlyFile::Format)?;
    match read_format(&text) {
        Ok(FormatFile::Known(layout)) if layout.packs() => Ok(Some(layout)),
        _ => Ok(None),
    }
}

// The names on which the youngest revision stands.
#[derive(Drop)]
struct Youngest {
    folder: Name,
    file: Name,
    props_folder: Name,
}

impl Youngest {
    // Of this revision, whose own file is packed or not.
    fn of(layout: Layout, revision: RevNum, is_packed: bool) -> Youngest {
        let shard = layout.shard_of(revision);
        let (folder, file) = if is_packed {
            (
                RepositoryFile::PackFolder(shard),
                RepositoryFile::Pack(shard),
            )
        } else {
            (
                RepositoryFile::Shard(shard),
                RepositoryFile::Revision(revision),
            )
        };
        Youngest {
            folder: folder.name(layout),
            file: file.name(layout),
            props_folder: RepositoryFile::PropsShard(shard).name(layout),
        }
    }
}

// The youngest revision's names, as far as the small files tell them.
fn youngest_in<C: Calls + Drop>(
    alloc: Global,
    folders: &mut Folders<C>,
    layout: Layout,
) -> Result<Option<Youngest>, CallError>
    ensures { told (C.history folders.new.calls) ≡ told (C.history folders.old.calls) }
{
    let floor = read_small(alloc, folders, OnlyFile::MinUnpackedRev)?;
    let current = read_small(alloc, folders, OnlyFile::Current)?;
    let Ok(floor) = read_min_unpacked_rev(layout, &floor) else {
        return Ok(None);
    };
    let Ok(youngest) = read_current(&current) else {
        return Ok(None);
    };
    let is_packed = youngest.get() < floor.get();
    Ok(Some(Youngest::of(layout, youngest, is_packed)))
}

// Notes these folders.
fn doubt_all<C: Calls + Drop>(folders: &mut Folders<C>, names: &[Name]) -> Result<(), CallError>
    ensures { told (C.history folders.new.calls) ≡ told (C.history folders.old.calls) }
{
    for name in names {
        folders.doubt(Path::of(name))?;
    }
    Ok(())
}

// What new files and folders are to have: what the youngest revision's file has, and the folders of shards.
fn learn_modes<C: Calls + Drop>(
    folders: &mut Folders<C>,
    youngest: &Youngest,
) -> Result<(), CallError>
    ensures { told (C.history folders.new.calls) ≡ told (C.history folders.old.calls) }
{
    let revision = folders.mode(&youngest.file)?;
    let shard = folders.mode(&OnlyFile::Revisions.name())?;
    let props_shard = folders.mode(&OnlyFile::RevisionProps.name())?;
    folders.set_modes(Modes {
        revision,
        shard,
        props_shard,
    });
    Ok(())
}

// Makes the names in a folder firm, where this user may open it: else others keep it, as of a folder above that can only be entered.
fn firm_outside<C: Calls + Drop>(folders: &mut Folders<C>, name: &Name) -> Result<(), CallError>
    ensures { told (C.history folders.new.calls) ≡ told (C.history folders.old.calls) }
{
    match folders.firm_folder(Path::of(name)) {
        Err(CallError::Denied) => Ok(()),
        done => done,
    }
}

/// Makes firm the name of a repository's folder and the names in it, as far as this user may, and notes the folders of its small files
/// and of its youngest revision, whose names may not be firm. So the first `firm_names` makes firm whatever the repository stands on.
/// And learns what new files and folders are to have.
pub fn doubt_names<C: Calls + Drop>(
    alloc: Global,
    folders: &mut Folders<C>,
) -> Result<(), CallError>
    ensures { told (C.history folders.new.calls) ≡ told (C.history folders.old.calls) }
{
    firm_outside(folders, &Name::new(".."))?;
    firm_outside(folders, &Name::new(""))?;
    let (revs, props) = (OnlyFile::Revisions.name(), OnlyFile::RevisionProps.name());
    let Some(layout) = read_layout(alloc, folders)? else {
        return Ok(());
    };
    doubt_all(folders, &[Name::new("db"), revs, props])?;
    match youngest_in(alloc, folders, layout)? {
        Some(youngest) => {
            doubt_all(
                folders,
                &[youngest.folder.copy(), youngest.props_folder.copy()],
            )?;
            learn_modes(folders, &youngest)
        }
        None => Ok(()),
    }
}
