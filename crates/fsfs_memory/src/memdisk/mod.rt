//! Disks and their benches, kept in memory, and a host that has such disks.

pub(crate) mod bench;
pub(crate) mod bench_files;
pub(crate) mod copying;
pub(crate) mod crash;
pub(crate) mod disk;
pub(crate) mod files;
pub(crate) mod host;
pub(crate) mod labels;
pub(crate) mod operations;
