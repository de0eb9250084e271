//! The laws. Each of these functions does nothing: what it ensures is proved once for all.
ghost use Rattle.fsfs_merge.specs.Landed.{MergeKeepsDrafts, MergeKeepsTrees};
ghost use Rattle.fsfs_merge.specs.LandedOwn.{LandedIsADraft};
ghost use Rattle.fsfs_merge.specs.LandedShown.{LandingsAreShown};
ghost use Rattle.fsfs_merge.specs.LandedWhole.{MergesTakeAndLeave};

/// What a merge without a clash leaves of a draft is a draft over the head: so both sides of a merge find one copy root.
pub fn merges_keep_drafts()
    ensures { MergeKeepsDrafts }
{}

/// And the draft that it leaves is one of the landed tree: its kinds, and the copies that its nodes came with.
pub fn merges_keep_trees()
    ensures { MergeKeepsTrees }
{}

/// What a merge without a clash leaves of a transaction's own node-revisions is a draft over the head, with the same marks.
pub fn landed_is_a_draft()
    ensures { LandedIsADraft }
{}

/// And it shows the landing, with the sources of its nodes.
pub fn landings_are_shown()
    ensures { LandingsAreShown }
{}

/// The laws of the merge apply to a whole draft, and without a clash it leaves a whole draft of the landing over the head.
pub fn merges_take_and_leave()
    ensures { MergesTakeAndLeave }
{}
