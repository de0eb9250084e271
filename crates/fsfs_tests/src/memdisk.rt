//! The disk in memory.
use fsfs_disk::{Disk, Label};
use fsfs_memory::MemDisk;
use std::test::Fail;

// What may be handed to another thread.
fn crosses<T: Send>(_value: &T) {}

#[test]
fn disks_and_benches_cross_threads(rt: HostRuntime) -> Result<(), Fail> {
    let mut disk = MemDisk::new(rt.alloc());
    let bench = disk.bench(&Label::Pack(0))?;
    crosses(&bench);
    crosses(&disk);
    Ok(())
}
