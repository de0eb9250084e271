//! The law. This function does nothing: what it ensures is proved once for all bytes.
ghost use Rattle.fsfs_final.specs.Laying.{PutsLay};

/// A whole draft's own node-revisions that were put, each behind what is in it, are laid in the revision, final, with their lists.
pub fn puts_lay()
    ensures { PutsLay }
{}
