//! Labels of transactions: which the disk keeps after a call, or after a crash.
ghost use Rattle.std.specs.Prelude.{◌≡◌, ◌++◌, [], OnOk, IfOk};
ghost use Rattle.fsfs_machine.specs.Machine.{takes_effect, without, labelled, unlabelled, has_label, label_where, labels_left};

use crate::files::{is_picked_first, without_first};
use crate::machine::Went;
use std::alloc::{AllocError, Global};
use std::collections::VecDeque;

// Whether the call took effect, however it ended.
fn is_effective(went: &Went) -> bool
    ensures { result ≡ takes_effect went.now }
{
    matches!(went, Went::Fine | Went::After)
}

/// The label is made, as far as the call went.
pub fn put_label(labels: &mut VecDeque<u128>, name: u128, went: &Went) -> Result<(), AllocError>
    ensures { OnOk result (labels.new.items ≡ labelled went.now name labels.old.items) }
{
    if is_effective(went) {
        labels.push_front(name)?;
    }
    Ok(())
}

/// The label is dropped, as far as the call went.
pub fn drop_label(
    alloc: Global,
    labels: VecDeque<u128>,
    name: u128,
    went: &Went,
) -> Result<VecDeque<u128>, AllocError>
    ensures { IfOk result (λ o. o.items ≡ unlabelled went.now name labels.items) }
{
    if is_effective(went) {
        without_label(alloc, labels, name)
    } else {
        Ok(labels)
    }
}

fn without_label(
    alloc: Global,
    mut labels: VecDeque<u128>,
    name: u128,
) -> Result<VecDeque<u128>, AllocError>
    ensures { IfOk result (λ o. o.items ≡ without name labels.items) }
{
    let mut out = VecDeque::new(alloc);
    while let Some(label) = labels.pop_front() {
        keep_label(&mut out, label, label != name)?;
    }
    Ok(out)
}

fn keep_label(out: &mut VecDeque<u128>, label: u128, kept: bool) -> Result<(), AllocError>
    ensures { OnOk result (out.new.items ≡ out.old.items ++ label_where kept label []) }
{
    if kept {
        out.push_back(label)?;
    }
    Ok(())
}

/// Whether there is the label.
pub fn is_labelled(labels: &VecDeque<u128>, name: u128) -> bool
    ensures { result ≡ has_label name labels.now.items }
{
    for label in labels {
        if *label == name {
            return true;
        }
    }
    false
}

/// What a crash leaves of the labels: those that are picked.
pub fn pick_labels(
    alloc: Global,
    mut labels: VecDeque<u128>,
    picks: &[bool],
) -> Result<VecDeque<u128>, AllocError>
    ensures { IfOk result (λ o. o.items ≡ labels_left picks.now labels.items) }
{
    let mut out = VecDeque::new(alloc);
    let mut rest = picks;
    while let Some(label) = labels.pop_front() {
        keep_label(&mut out, label, is_picked_first(rest))?;
        rest = without_first(rest);
    }
    Ok(out)
}
