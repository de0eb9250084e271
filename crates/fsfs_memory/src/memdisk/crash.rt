// What a crash leaves of a disk in memory.
ghost use Rattle.std.specs.Prelude.{◌≡◌, IfOk, OnOk, true, false, drop};
ghost use Rattle.fsfs_disk.specs.Trace.{changed};
ghost use Rattle.fsfs_memory.specs.Memdisk.PickedImage.{is_picked, left_after, picked_image, picked_labels};
ghost use Rattle.fsfs_memory.specs.Memdisk.Stored.{operations_of, change_of, labels_of};

use crate::memdisk::files::MemFiles;
use crate::memdisk::operations::{MemChange, MemOperation};
use fsfs_disk::Label;
use std::alloc::{AllocError, Global};
use std::collections::VecDeque;

// What is left after one change more: the change, where it is picked, or nothing of it. `now` are the files that it met.
fn leave(
    left: &mut MemFiles,
    now: &MemFiles,
    change: &MemChange,
    picked: bool,
) -> Result<(), AllocError>
    ensures { OnOk result (left.new ≡ left_after picked (change_of change.now) now.now left.old) }
{
    match change {
        MemChange::FirmNames => {
            *left = now.clone()?;
            Ok(())
        }
        MemChange::Rename(from, to) => {
            if picked {
                // The file that stood there, which what is left may lack.
                let bytes = now.share(from)?;
                left.replace(from, to, bytes)?;
            }
            Ok(())
        }
        MemChange::KeepLabel(_) | MemChange::DropLabel(_) => Ok(()),
        MemChange::Put(_) | MemChange::Adopt(_) | MemChange::Remove(_) => {
            if picked {
                change.apply(left)?;
            }
            Ok(())
        }
    }
}

// One operation more: what is left after it, and the files after it.
fn meet(
    left: &mut MemFiles,
    now: &mut MemFiles,
    operation: MemOperation,
    picked: bool,
) -> Result<(), AllocError>
    ensures left { OnOk result (operation.done ≡ true → left.new ≡ left_after picked (change_of operation.change) now.old left.old) }
    ensures now { OnOk result (operation.done ≡ true → now.new ≡ changed (change_of operation.change) now.old) }
    ensures attempted { OnOk result (operation.done ≡ false → (left.new ≡ left.old) × (now.new ≡ now.old)) }
{
    if operation.done {
        leave(left, now, &operation.change, picked)?;
        operation.change.apply(now)?;
    }
    Ok(())
}

// The first of the picks, and those after it. Past their end nothing is picked.
fn next_pick(pick: &[bool]) -> (bool, &[bool])
    ensures first { result.0 ≡ is_picked pick.now 0 }
    ensures rest { result.1.now ≡ drop 1 pick.now }
{
    match pick.split_first() {
        Some((first, rest)) => (*first, rest),
        None => (false, pick),
    }
}

/// What a crash leaves of these files after these operations, the newest first. A change that isn't firm is there where it is picked.
pub fn image(
    first: MemFiles,
    mut operations: VecDeque<MemOperation>,
    pick: &[bool],
) -> Result<MemFiles, AllocError>
    ensures { IfOk result (λ left. left ≡ picked_image pick.now first (operations_of operations.items)) }
{
    let mut now = first.clone()?;
    let mut left = first;
    let mut rest = pick;
    while let Some(operation) = operations.pop_back() {
        let (picked, later) = next_pick(rest);
        rest = later;
        meet(&mut left, &mut now, operation, picked)?;
    }
    Ok(left)
}

/// What a crash leaves of the labels: those that are picked.
pub fn labels_left(
    alloc: Global,
    labels: &VecDeque<Label>,
    pick: &[bool],
) -> Result<VecDeque<Label>, AllocError>
    ensures { IfOk result (λ left. labels_of left.items ≡ picked_labels pick.now (labels_of labels.now.items)) }
{
    let mut left = VecDeque::new(alloc);
    let mut rest = pick;
    for label in labels {
        let (picked, later) = next_pick(rest);
        rest = later;
        if picked {
            left.push_back(*label)?;
        }
    }
    Ok(left)
}

/// The picks behind those of so many operations.
pub fn picks_behind(pick: &[bool], operations: usize) -> &[bool]
    ensures { result.now ≡ drop operations pick.now }
{
    if operations < pick.len() {
        &pick[operations..]
    } else {
        &[]
    }
}
