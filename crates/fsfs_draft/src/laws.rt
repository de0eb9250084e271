//! The laws. Each of these functions does nothing: what it ensures is proved once for all bytes.
ghost use Rattle.fsfs_draft.specs.HeadLaws.{HeadLaws, UntouchedIsShared};

/// Where the bytes of revisions show trees, and the node-revisions hang together: of an entry above which the
/// head kept what the base has, the id is the base's exactly where the head did not touch it; it is a continuation exactly where
/// the head held it; and the representation of its properties is the base's exactly where the head did not change them.
pub fn ids_tell_what_a_head_changed()
    ensures { HeadLaws }
{}

/// What the head did not touch has the base's node-revisions, at the path and below it.
pub fn untouched_is_shared()
    ensures { UntouchedIsShared }
{}
