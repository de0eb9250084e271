//! Why a file of a transaction's folder was not written.
use crate::folder_file::FolderFile;
use thiserror::Error;

/// A call of the bench failed at this file, and the bench's count of faults rose.
#[derive(Clone, Copy, Debug, Error)]
#[error("the bench failed")]
pub struct FileFault {
    pub file: FolderFile,
}
