// A book over the files of a disk.
use fsfs_create::open;
use fsfs_disk::Disk;
use fsfs_fetch::{Direct, OwnedReads, over_disk};
use fsfs_memory::Transcript;
use std::alloc::Global;

/// A book over a disk.
pub type DiskBook<D> = Direct<OwnedReads<D>>;

/// A book over the repository of a disk; or the disk again, where there is none.
pub fn book_over<D: Disk>(alloc: Global, disk: D, out: &mut Transcript) -> Result<DiskBook<D>, D> {
    let mut disk = disk;
    match open(alloc, &mut disk) {
        Ok(opened) => Ok(over_disk(
            alloc,
            disk,
            opened.youngest,
            opened.layout,
            opened.min_unpacked_rev,
        )),
        Err(_) => {
            out.say("? no repository");
            Err(disk)
        }
    }
}
