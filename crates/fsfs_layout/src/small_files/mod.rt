//! The small files that say what stands where, each read and written.

pub(crate) mod format_file;
pub(crate) mod manifest_file;
pub(crate) mod next_ids_file;
pub(crate) mod reading;
pub(crate) mod rev_files;
pub(crate) mod txn_current_file;
pub(crate) mod uuid_file;
