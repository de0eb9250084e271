//! The quiet disk, over one in memory.
use fsfs_base::Name;
use fsfs_disk::{Bench, Disk, Label, QuietDisk};
use fsfs_memory::MemDisk;
use std::test::Fail;

// What is there gets its name, and so does a bench's file that was made firm; of what is gone, or isn't firm, it is noted.
#[test]
fn a_file_that_is_gone_is_noted(rt: HostRuntime) -> Result<(), Fail> {
    let (one, other) = (Name::new("one"), Name::new("other"));
    let mut disk = QuietDisk::new(MemDisk::new(rt.alloc()));
    let mut bench = disk.bench(&Label::Pack(0))?;
    disk.put(&one, b"text")?;
    disk.rename(&one, &other)?;
    bench.append(&one, b"more")?;
    bench.firm(&one)?;
    disk.adopt(&mut bench, &one, &one)?;
    assert!(rt; !disk.has_lost());
    let mut unfirm = QuietDisk::new(disk.into_disk());
    bench.append(&one, b"rest")?;
    unfirm.adopt(&mut bench, &one, &other)?;
    assert!(rt; unfirm.has_lost());
    let mut gone = QuietDisk::new(unfirm.into_disk());
    gone.rename(&Name::new("none"), &other)?;
    assert!(rt; gone.has_lost());
    let disk = gone.into_disk();
    assert!(rt; disk.file(&one) == Some(b"more".as_slice()));
    assert!(rt; disk.file(&other) == Some(b"text".as_slice()));
    assert!(rt; disk.faults() == 0);
    Ok(())
}
