// A crash, and what is asked of what it leaves.
use anyhow::{Result, bail};
use fsfs_memory::{cut, picks_of};
use std::alloc::Global;

/// So many changes of one example can be picked.
const MOST_CHANGES: usize = 64;

/// Which changes a crash leaves, and of which names it is told what is left of them.
#[derive(Drop)]
pub struct Crash<'a> {
    pub picks: Vec<bool>,
    /// All bytes of files that were not made firm are left, and not none.
    pub all_bytes: bool,
    pub names: &'a str,
}

impl<'a> Crash<'a> {
    /// Reads a line: `crash all NAME ..`, `crash none NAME ..`, or `crash 2,5 NAME ..`.
    pub fn read(alloc: Global, line: &'a str) -> Result<Crash<'a>> {
        let Some(words) = line.strip_prefix("crash ") else {
            bail!("no crash");
        };
        let (picks, names) = cut(words);
        Ok(Crash {
            picks: picks_of(alloc, picks, ',', 0, MOST_CHANGES)?,
            all_bytes: picks != "none",
            names,
        })
    }
}
