//! Files read as a whole, through anything that gives parts of files.

pub(crate) mod disk_parts;
pub(crate) mod file_fault;
pub(crate) mod parts;
pub(crate) mod whole_file;
