//! Why a file was not read.
ghost use Rattle.std.specs.Prelude.{◌≡◌};

use fsfs_base::Failed;
use std::alloc::AllocError;

/// Why a file was not read.
#[derive(Clone, Copy)]
pub enum FileFault {
    /// A call of the disk failed.
    Failed,
    /// Memory was wanting.
    Memory,
}

impl From<Failed> for FileFault {
    ghost use Rattle.fsfs_disk.specs.declared.whole_files.file_fault.FileFault.TheVariants.{Failed as DiskFailed};

    ghost from_gives = { λ _ e. e ≡ DiskFailed };

    fn from(_: Failed) -> FileFault {
        FileFault::Failed
    }
}

impl From<AllocError> for FileFault {
    ghost use Rattle.fsfs_disk.specs.declared.whole_files.file_fault.FileFault.TheVariants.{Memory};

    ghost from_gives = { λ _ e. e ≡ Memory };

    fn from(_: AllocError) -> FileFault {
        FileFault::Memory
    }
}
