// Disks that fail, and disks behind a crash.
use fsfs_memory::{MemDisk, Transcript};
use std::alloc::{AllocError, Global};

/// How calls fail.
#[derive(Clone, Copy)]
pub enum Way {
    /// One of the disk.
    Disk,
    /// One of the bench.
    Bench,
    /// One of the disk, and each behind it.
    Stop,
    /// The first of the bench; and one of the disk, and each behind it.
    BenchAndStop,
}

impl Way {
    pub fn word(self) -> &'static str {
        match self {
            Way::Disk => "disk",
            Way::Bench => "bench",
            Way::Stop => "stop",
            Way::BenchAndStop => "bench, stop",
        }
    }
}

/// The same disk, whose call of this number fails; the first is 1.
pub fn failing(
    alloc: Global,
    disk: MemDisk,
    way: Way,
    number: u64,
    out: &mut Transcript,
) -> MemDisk {
    let none = Vec::new(alloc);
    let (Ok(this), Ok(first)) = (
        Vec::from_slice(alloc, &[number]),
        Vec::from_slice(alloc, &[1]),
    ) else {
        out.lose();
        return disk;
    };
    let passing = number.saturating_sub(1);
    match way {
        Way::Disk => disk.failing(this, none),
        Way::Bench => disk.failing(none, this),
        Way::Stop => disk.failing(none, Vec::new(alloc)).fuse(passing),
        Way::BenchAndStop => disk.failing(none, first).fuse(passing),
    }
}

/// The same disk, of whose calls none fails.
pub fn sound(alloc: Global, disk: MemDisk) -> MemDisk {
    disk.failing(Vec::new(alloc), Vec::new(alloc))
}

// So many changes and labels are picked; no example has more.
const MOST: u32 = 64;

// Which changes are left: a bit for each.
fn picks(alloc: Global, pattern: u64) -> Result<Vec<bool>, AllocError> {
    let mut picks = Vec::new(alloc);
    for at in 0..MOST {
        picks.push((pattern >> at) & 1 == 1)?;
    }
    Ok(picks)
}

/// What a crash leaves of the disk: of changes and labels those whose bits are set, the oldest in the lowest.
pub fn crashed(alloc: Global, disk: MemDisk, pattern: u64, out: &mut Transcript) -> MemDisk {
    let Ok(picks) = picks(alloc, pattern) else {
        out.lose();
        return disk;
    };
    match disk.crash(&picks) {
        Ok(left) => left,
        Err(_) => {
            out.lose();
            MemDisk::new(alloc)
        }
    }
}
