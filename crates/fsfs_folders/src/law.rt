// What a crash leaves.
ghost use Rattle.std.specs.Prelude.{◌≡◌, true, IfSome};
ghost use Rattle.fsfs_folders.specs.Told.{LeavesImages};
ghost use Rattle.fsfs_folders.specs.Keeping.{keeps};
ghost use Rattle.fsfs_folders.specs.LabelsLeft.{are_drops_firm, LeavesLabels};

use crate::Calls;

/// Of calls that keep to the rules: whatever a crash may leave now, of names and of bytes, shows one of the images that are told. It
/// does nothing.
pub fn leaves_images<C: Calls>(calls: &C)
    requires { IfSome (C.history calls.now) (λ r. keeps r.first r.calls ≡ true) }
    ensures { IfSome (C.history calls.now) LeavesImages }
{
    let _ = calls;
}

/// Of calls after which each folder of a bench that was dropped is so firmly: each label whose folder a crash may leave now is kept.
/// It does nothing.
pub fn leaves_labels<C: Calls>(calls: &C)
    requires { IfSome (C.history calls.now) (λ r. are_drops_firm r.calls ≡ true) }
    ensures { IfSome (C.history calls.now) LeavesLabels }
{
    let _ = calls;
}
