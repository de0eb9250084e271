//! The laws of what files stand for. Each of these functions does nothing: what it ensures is proved once for all files.
ghost use Rattle.fsfs_stands.specs.Histories.{ShownIsAHistory, StoodForIsAHistory};
ghost use Rattle.fsfs_stands.specs.PathHistories.{PathHistoriesAreFlat};
ghost use Rattle.fsfs_stands.specs.Seen.{LaterFilesAreNotSeen};

/// What bytes show, and what files stand for, is a history: the first revision has `/` alone, and the tree of each later one
/// follows that of the one before it by its numbers, its properties and its sources.
pub fn what_files_stand_for_is_a_history()
    ensures bytes { ShownIsAHistory }
    ensures files { StoodForIsAHistory }
{}

/// The text of a path's history, as the node-revisions give it, is that of the flat model: a line for each of its points, or
/// nothing and the refusal that the tree gives, and never damage.
pub fn path_histories_are_flat()
    ensures { PathHistoriesAreFlat }
{}

/// Files stand for what the revisions up to the youngest hold: other files that say the same in the small files, and have the same
/// bytes of those revisions, stand for the same history. So a file that was left above `db/current` is seen by nobody.
pub fn later_files_are_not_seen()
    ensures { LaterFilesAreNotSeen }
{}
