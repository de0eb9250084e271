//! What the machine's disk says of real disks. The functions do nothing: what they ensure is proved once for all traces.
ghost use Rattle.std.specs.Prelude.{List, ℕ, Bool};
ghost use Rattle.fsfs_disk.specs.Labels.{Label};
ghost use Rattle.fsfs_images.specs.RealNames.{AreMachineNames};
ghost use Rattle.fsfs_images.specs.Shown.{ImagesAreShown, AreLabelNames, LabelsAreShown};

use fsfs_layout::Layout;

/// The machine's files are files of a repository, and are told apart by their names there, whatever the layout.
pub fn machine_files_have_names(layout: Layout)
    ensures { AreMachineNames layout }
{
    let _ = layout;
}

/// Where a real disk's operations are read as changes of the machine's disk, each file by its name, its files now are read as the
/// machine's, and each image of it, also of a put that was torn, as an image of the machine's disk; what the machine took away is not
/// there. A file that is neither the machine's nor one of those `others` that may be changed beside is the same in each image.
pub fn images_are_shown(layout: Layout)
    ensures { (others : List ℕ → Bool) → ImagesAreShown layout others }
{
    let _ = layout;
}

/// Where labels of transactions are told apart as the machine's are: what a call on a label leaves of a real disk's labels
/// is read as what it leaves of the machine's, and what a crash leaves as what one leaves there.
pub fn labels_are_shown()
    ensures { (names : ℕ → Label) → AreLabelNames names → LabelsAreShown names }
{}
