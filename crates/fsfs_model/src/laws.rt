//! The laws of the flat model. Each of these functions does nothing: what it ensures is proved once for all trees.
ghost use Rattle.std.specs.Prelude.{List};
ghost use Rattle.fsfs_tree.specs.Revisions.{Revision};
ghost use Rattle.fsfs_tree.specs.Histories.{IsHistory};
ghost use Rattle.fsfs_model.specs.Laws.{OuterMarks, TwoMergesAreOne, LandingLeavesATree, CommitsMakeAHistory, FoldingTells, PathHistoriesEnd};

/// Which marks of a transaction are outer: those at or above whose path nothing is that the transaction made itself.
pub fn outer_marks_stand_alone()
    ensures { OuterMarks }
{}

/// Two merges in turn are one: where nothing clashes at the first head, the clashes at the second are the same from
/// the base as from the first head, and landing on both in turn is landing on the second.
pub fn two_merges_are_one()
    ensures { TwoMergesAreOne }
{}

/// What a transaction has, and what its landing without a clash leaves, is a tree.
pub fn landing_leaves_a_tree()
    ensures { LandingLeavesATree }
{}

/// A history with the revision that a commit adds is a history, with all that a history asks of kinds, sources, properties
/// and numbers; and so is what comes of commits in turn.
pub fn commits_make_a_history()
    ensures { CommitsMakeAHistory }
{}

/// Wherever the tree of a revision that a commit adds differs from its parent's in kind, text, properties or source, a
/// changed path stands there or above. None stands below a delete, and a path that was made and deleted again has none.
pub fn folding_tells()
    ensures { FoldingTells }
{}

/// The history of a path goes from each point to an earlier revision, where something stands, and so it ends; and each of
/// its points stands in the tree of its revision.
pub fn path_histories_end()
    ensures { (h : List Revision) → IsHistory h → PathHistoriesEnd h }
{}
