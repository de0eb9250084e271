//! The disks and the host over folders of a system: mounting, the lock, and the files that stay open.
#![tactic(auto)]

mod disk;
mod doubts;
mod file_system;
mod found;
mod ground;
mod host;
mod mounting;
mod open_files;
mod places;

pub use disk::FolderDisk;
pub use file_system::{FileId, FileSystem};
pub use host::FolderHost;
