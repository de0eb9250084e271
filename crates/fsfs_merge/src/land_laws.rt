//! The laws. A function here does nothing: what it ensures is proved once for all.
ghost use Rattle.fsfs_merge.specs.Landings.{PlansLand};

/// The directories that a merge finds in a draft are of its folder; and written they leave a draft of the landing.
pub fn plans_land()
    ensures { PlansLand }
{}
