//! The laws of histories that are read. Each of these functions does nothing: what it ensures is proved once for all bytes.
ghost use Rattle.fsfs_stands.specs.Laws.{StepsAreOne, HistoriesHaveOneText, StepsAreByTrees, HistoriesAreByTrees};

/// Whatever the bytes are, a point leads to one point at most, and a history has one text at most.
pub fn histories_have_one_text()
    ensures steps { StepsAreOne }
    ensures texts { HistoriesHaveOneText }
{}

/// Where the bytes show trees and obey the rules of ids, a step back leads where the flat history of the path goes on.
pub fn steps_are_by_the_trees()
    ensures { StepsAreByTrees }
{}

/// And the text is that of the flat history, or nothing and why.
pub fn histories_are_by_the_trees()
    ensures { HistoriesAreByTrees }
{}
