// The labels that a disk in memory keeps.
ghost use Rattle.std.specs.Prelude.{◌≡◌, ◌++◌, ◌∷◌, [], length, slice_get, IfOk, OnOk};
ghost use Rattle.fsfs_disk.specs.Labels.{label_of, has_label, with_label, without_label as labels_without, txn_entries, IsListing};
ghost use Rattle.fsfs_memory.specs.Memdisk.Stored.{labels_of};

use fsfs_base::Name;
use fsfs_disk::Label;
use fsfs_layout::txn_entry;
use std::alloc::{AllocError, Global};
use std::collections::VecDeque;

/// Whether there is the label.
pub fn is_kept(labels: &VecDeque<Label>, label: &Label) -> bool
    ensures { result ≡ has_label (label_of label.now) (labels_of labels.now.items) }
{
    for kept in labels {
        if kept.is(label) {
            return true;
        }
    }
    false
}

/// The labels without one.
pub fn without_label(
    alloc: Global,
    labels: &VecDeque<Label>,
    label: &Label,
) -> Result<VecDeque<Label>, AllocError>
    ensures { IfOk result (λ left. labels_of left.items ≡ labels_without (label_of label.now) (labels_of labels.now.items)) }
{
    let mut left = VecDeque::new(alloc);
    for kept in labels {
        if !kept.is(label) {
            left.push_back(*kept)?;
        }
    }
    Ok(left)
}

/// The labels with one, behind the others.
pub fn keep_label(
    alloc: Global,
    labels: &VecDeque<Label>,
    label: &Label,
) -> Result<VecDeque<Label>, AllocError>
    ensures { IfOk result (λ left. labels_of left.items ≡ with_label (label_of label.now) (labels_of labels.now.items)) }
{
    let mut left = without_label(alloc, labels, label)?;
    left.push_back(*label)?;
    Ok(left)
}

// The names of the folders of transactions, in the order of the labels.
fn entries_of(alloc: Global, labels: &VecDeque<Label>) -> Result<Vec<Name>, AllocError>
    ensures { IfOk result (λ names. names.items ≡ txn_entries (labels_of labels.now.items)) }
{
    let mut names = Vec::new(alloc);
    for label in labels {
        if let Label::Txn(txn) = label {
            names.push(txn_entry(txn))?;
        }
    }
    Ok(names)
}

/// The names of the folders of transactions, in the order of their bytes.
pub fn listing(alloc: Global, labels: &VecDeque<Label>) -> Result<Vec<Name>, AllocError>
    ensures { IfOk result (λ names. IsListing (labels_of labels.now.items) names.items) }
{
    let mut names = entries_of(alloc, labels)?;
    names.sort()?;
    Ok(names)
}
