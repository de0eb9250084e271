// Making a repository on a disk.
ghost use Rattle.std.specs.Prelude.{◌≡◌, ◌≤◌, map, option_map, Some, OnOk, OnErr, IfErr, IsTrue};
ghost use Rattle.fsfs_base.specs.Failures.{Rose};
ghost use Rattle.fsfs_disk.specs.Trace.{Trace};
ghost use Rattle.fsfs_disk.specs.Crash.{AllImages, Leaves, IsFirm};
ghost use Rattle.fsfs_layout.specs.CreatedFiles.{identifier_text};
ghost use Rattle.fsfs_layout.specs.Layouts.{Packs, shard_size};
ghost use Rattle.fsfs_create.specs.NewFiles.{named};
ghost use Rattle.fsfs_create.specs.Creation.{after_puts, after_publishing, after_creation, StopsInPuts, StopsPublishing, StopsAt, HasRepository, IsNoRepository, IsUnpublished, IsCreated, IsNoneOrWhole, CreateFails};
ghost use Rattle.fsfs_create.specs.NewStore.{IsNewStore, IsNoneOrNew};

use crate::initial::{NewFile, created_files};
use fsfs_base::{CreateFault, CreatePlace, DiskPlace, Failed, write_date};
use fsfs_disk::Disk;
use fsfs_layout::{Layout, OnlyFile, RepositoryFile, write_format};
use std::alloc::Global;
use uuid::Uuid;

// Makes the folders of a repository.
fn make_folders<D: Disk>(disk: &mut D, layout: Layout) -> Result<(), Failed>
    requires { IsTrue (D.may_write disk.old) }
    ensures same { D.trace disk.new ≡ D.trace disk.old }
    ensures mounted { D.mount_path disk.new ≡ D.mount_path disk.old }
    ensures right { D.may_write disk.new ≡ D.may_write disk.old }
    ensures later { D.faults disk.old ≤ D.faults disk.new }
    ensures failed { OnErr result (Rose (D.faults disk.old) (D.faults disk.new)) }
{
    disk.make_folder(&RepositoryFile::Shard(0).name(layout))?;
    disk.make_folder(&RepositoryFile::PropsShard(0).name(layout))?;
    disk.make_folder(&OnlyFile::Transactions.name())?;
    disk.make_folder(&OnlyFile::ProtoRevisions.name())
}

// Puts files, in order.
fn put_all<D: Disk>(disk: &mut D, files: &[NewFile]) -> Result<(), Failed>
    requires { IsTrue (D.may_write disk.old) }
    ensures done { OnOk result (D.trace disk.new ≡ option_map (after_puts (map named files.now)) (D.trace disk.old)) }
    ensures stopped { OnErr result (StopsInPuts (map named files.now) (D.trace disk.old) (D.trace disk.new)) }
    ensures mounted { D.mount_path disk.new ≡ D.mount_path disk.old }
    ensures right { D.may_write disk.new ≡ D.may_write disk.old }
    ensures later { D.faults disk.old ≤ D.faults disk.new }
    ensures failed { OnErr result (Rose (D.faults disk.old) (D.faults disk.new)) }
{
    for file in files {
        disk.put(&file.name, &file.bytes)?;
    }
    Ok(())
}

// Lets the files be a repository, by one change of names.
fn publish<D: Disk>(disk: &mut D, format: &[u8]) -> Result<(), CreatePlace>
    requires { IsTrue (D.may_write disk.old) }
    ensures done { OnOk result (D.trace disk.new ≡ option_map (after_publishing format.now) (D.trace disk.old)) }
    ensures stopped { IfErr result (λ place. StopsPublishing place format.now (D.trace disk.old) (D.trace disk.new)) }
    ensures mounted { D.mount_path disk.new ≡ D.mount_path disk.old }
    ensures right { D.may_write disk.new ≡ D.may_write disk.old }
    ensures later { D.faults disk.old ≤ D.faults disk.new }
    ensures failed { OnErr result (Rose (D.faults disk.old) (D.faults disk.new)) }
{
    let next = OnlyFile::FormatNext.name();
    disk.put(&next, format).map_err(|_| CreatePlace::Put)?;
    disk.rename(&next, &OnlyFile::Format.name())
        .map_err(|_| CreatePlace::Rename)?;
    disk.firm_names().map_err(|_| CreatePlace::Last)
}

// Writes all files of a repository.
fn write_files<D: Disk>(
    disk: &mut D,
    layout: Layout,
    files: &[NewFile],
    format: &[u8],
) -> Result<(), CreatePlace>
    requires { IsTrue (D.may_write disk.old) }
    ensures done { OnOk result (D.trace disk.new ≡ option_map (after_creation (map named files.now) format.now) (D.trace disk.old)) }
    ensures stopped { IfErr result (λ place. StopsAt place (map named files.now) format.now (D.trace disk.old) (D.trace disk.new)) }
    ensures mounted { D.mount_path disk.new ≡ D.mount_path disk.old }
    ensures right { D.may_write disk.new ≡ D.may_write disk.old }
    ensures later { D.faults disk.old ≤ D.faults disk.new }
    ensures failed { OnErr result (Rose (D.faults disk.old) (D.faults disk.new)) }
{
    make_folders(disk, layout).map_err(|_| CreatePlace::Put)?;
    put_all(disk, files).map_err(|_| CreatePlace::Put)?;
    disk.firm_names().map_err(|_| CreatePlace::Firm)?;
    publish(disk, format)
}

/// Makes a repository of this layout, of format 4 and in shards, of revision 0 alone, whose date is the moment
/// (microseconds since the beginning of 1970 in UTC). It is one from the moment on at which `db/format` has its name.
pub fn create<D: Disk>(
    alloc: Global,
    disk: &mut D,
    identifier: Uuid,
    layout: Layout,
    moment: u64,
) -> Result<(), CreateFault>
    requires moment { moment ≤ 4_102_444_799_999_999 }
    requires packs { Packs layout }
    requires right { IsTrue (D.may_write disk.old) }

    ensures created { OnOk result (IsCreated (shard_size layout) (identifier_text identifier) moment (D.trace disk.old) (D.trace disk.new)) }
    ensures fresh { OnOk result (IsNoRepository (D.trace disk.old)) }

    // The new repository is firm.
    ensures firm { OnOk result (IsFirm (D.trace disk.new)) }

    ensures refused { IfErr result (CreateFails (Rose (D.faults disk.old) (D.faults disk.new)) (shard_size layout) (identifier_text identifier) moment (D.trace disk.old) (D.trace disk.new)) }

    // A repository that is there stays as it is, whatever is answered.
    ensures there_same { (t : Trace) → D.trace disk.old ≡ Some t → HasRepository t → D.trace disk.new ≡ D.trace disk.old }

    // A crash at any moment leaves no repository or the whole of this one.
    ensures any_moment { AllImages (D.trace disk.old) IsUnpublished
        → Leaves (D.trace disk.old) (D.trace disk.new) (IsNoneOrWhole (shard_size layout) (identifier_text identifier) moment (D.trace disk.old)) }

    // So it leaves no repository, or a store of which it is known what it stands for: the history of revision 0 alone. From the last
    // firming on it leaves that store.
    ensures stands_or_none { AllImages (D.trace disk.old) IsUnpublished → Leaves (D.trace disk.old) (D.trace disk.new) (IsNoneOrNew moment) }
    ensures stands { OnOk result (AllImages (D.trace disk.new) (IsNewStore moment)) }

    ensures mounted { D.mount_path disk.new ≡ D.mount_path disk.old }
    ensures right { D.may_write disk.new ≡ D.may_write disk.old }
    ensures later { D.faults disk.old ≤ D.faults disk.new }
{
    match disk.size(&OnlyFile::Format.name()) {
        Err(_) => return Err(CreateFault::DiskFault(DiskPlace::Read)),
        Ok(Some(_)) => return Err(CreateFault::AlreadyRepo),
        Ok(None) => {}
    }
    let date = write_date(alloc, moment)?;
    let files = created_files(alloc, identifier, layout, &date)?;
    let format = write_format(alloc, layout)?;
    match write_files(disk, layout, &files, &format) {
        Ok(()) => Ok(()),
        Err(place) => Err(CreateFault::DiskFault(DiskPlace::Create(place))),
    }
}
