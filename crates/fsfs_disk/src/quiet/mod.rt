//! A disk that tells nothing of its files, over any disk.

pub(crate) mod bench;
pub(crate) mod calls;
pub(crate) mod disk;
