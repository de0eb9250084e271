//! The check.
ghost use Rattle.std.specs.Prelude.{◌≡◌, IfErr, IfSome};
ghost use Rattle.fsfs_disk.specs.Trace.{files_now};
ghost use Rattle.fsfs_look.specs.Written.{HasDiskCause, IfWrite};
ghost use Rattle.fsfs_revision.specs.RevBytes.{props_bytes, rev_bytes};
ghost use Rattle.fsfs_check.specs.Finds.{Finds};

use crate::floor::floor_now;
use crate::nowhere::Nowhere;
use fsfs_base::RevNum;
use fsfs_disk::Disk;
use fsfs_fetch::{disk_of, over_disk};
use fsfs_layout::Layout;
use fsfs_look::LookError;
use fsfs_verify::verify;
use std::alloc::Global;
use std::thread::Threads;

/// Checks all revisions of the repository on a disk, which has this layout, up to this one, and gives the disk back. Nothing is
/// printed. `Ok` comes only where the files show a history no text of which is a delta; what is refused is wrong with them.
pub fn check<T: Threads, D: Disk>(
    rt: &T,
    alloc: Global,
    mut disk: D,
    layout: Layout,
    youngest: RevNum,
) -> (D, Result<(), LookError>)
    ensures told { IfSome (D.trace disk) (λ t. Finds (rev_bytes layout (files_now t)) (props_bytes layout (files_now t)) youngest result.1) }
    ensures same { D.trace result.0 ≡ D.trace disk }
    ensures mounted { D.mount_path result.0 ≡ D.mount_path disk }
    // Whatever the disk tells: it is told to have failed only where its count of faults rose.
    ensures cause { HasDiskCause (D.faults disk) (D.faults result.0) result.1 }
    ensures unwritten { IfErr result.1 (λ e. IfWrite e ⊥) }
    ensures benches { D.bench_faults result.0 ≡ D.bench_faults disk }
{
    let floor = match floor_now(&mut disk, layout) {
        Ok(floor) => floor,
        Err(error) => return (disk, Err(error)),
    };
    let mut book = over_disk(alloc, disk, youngest, layout, floor);
    let checked = verify(rt, alloc, &mut book, youngest, &mut Nowhere);
    (disk_of(book), checked)
}
