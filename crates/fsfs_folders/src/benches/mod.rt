//! Benches: their folders, their files, and where they stand.

pub(crate) mod bench;
pub(crate) mod bench_files;
pub(crate) mod label_paths;
pub(crate) mod part;
