// Which calls fail.
use anyhow::{Result, bail};
use fsfs_memory::{cut, numbers_of};
use std::alloc::Global;

/// Calls that fail; the first is 1.
#[derive(Drop)]
pub enum Failing {
    /// None.
    Never,
    /// These of the disk.
    OfDisk(Vec<u64>),
    /// These of the disk, which do their work all the same.
    Made(Vec<u64>),
    /// These of each bench.
    OfBench(Vec<u64>),
    /// Each one behind so many.
    Behind(u64),
}

impl Failing {
    pub fn read(alloc: Global, text: &str) -> Result<Failing> {
        if text.is_empty() {
            return Ok(Failing::Never);
        }
        let (word, numbers) = cut(text);
        match word {
            "failing" => Ok(Failing::OfDisk(numbers_of(alloc, numbers, ',')?)),
            "made" => Ok(Failing::Made(numbers_of(alloc, numbers, ',')?)),
            "bench" => Ok(Failing::OfBench(numbers_of(alloc, numbers, ',')?)),
            "behind" => Ok(Failing::Behind(numbers.parse::<u64>()?)),
            _ => bail!("no way to fail"),
        }
    }
}
