//! The laws of changed paths that are read. Each of these functions does nothing: what it ensures is proved once for all
//! bytes.
ghost use Rattle.fsfs_stands.specs.ChangedLaws.{ItemsAreOne, ChangedPathsHaveOneText, ChangedPathsAreByTheTrees, ChangedPathsAreFlat};

/// Whatever the bytes are, a revision's changed paths are read in one way at most, and have one text at most.
pub fn changed_paths_have_one_text()
    ensures items { ItemsAreOne }
    ensures texts { ChangedPathsHaveOneText }
{}

/// Where the bytes show trees and changed paths, and where files stand for a history, what is printed is the flat text of the
/// revision's changed paths, and nothing is refused.
pub fn changed_paths_are_flat()
    ensures bytes { ChangedPathsAreByTheTrees }
    ensures files { ChangedPathsAreFlat }
{}
