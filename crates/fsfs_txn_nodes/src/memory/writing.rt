//! Changes of files: made ready by the steps of an edit, and written into the bench.
ghost use Rattle.std.specs.Prelude.{◌≡◌, ◌++◌, option_map, OnErr, OnOk};
ghost use Rattle.fsfs_base.specs.Failures.{HasCause};
ghost use Rattle.fsfs_txn_files.specs.Changes.{changed_all};

use fsfs_disk::Bench;
use fsfs_txn_files::{FileChange, FileFault, make_all};
use std::alloc::AllocError;

/// Puts files behind those that are ready.
pub(crate) fn take_files(
    changes: &mut Vec<FileChange>,
    files: Vec<FileChange>,
) -> Result<(), AllocError>
    ensures done { OnOk result (changes.new.items ≡ changes.old.items ++ files.items) }
    ensures left { OnErr result (changes.new.items ≡ changes.old.items) }
{
    let mut files = files;
    changes.append(&mut files)
}

/// Writes what the steps of an edit change, and then what its end does. It takes no memory.
pub(crate) fn write_files<B: Bench>(
    bench: &mut B,
    steps: &[FileChange],
    last: &[FileChange],
) -> Result<(), FileFault>
    ensures done { OnOk result (B.contents bench.new ≡ option_map (changed_all last.now) (option_map (changed_all steps.now) (B.contents bench.old))) }
    ensures cause { HasCause (B.faults bench.old) (B.faults bench.new) result }
{
    make_all(bench, steps)?;
    make_all(bench, last)
}
