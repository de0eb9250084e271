//! The laws of what stood at a path before. Each of these functions does nothing: what it ensures is proved once for all bytes.
ghost use Rattle.fsfs_revision.specs.Ancestry.Bounded.{LaterBytesChangeNothing};
ghost use Rattle.fsfs_revision.specs.Ancestry.Trees.{PredecessorsAreEarlier, ShownTreesAreRevisions};

/// Where the bytes show trees and obey the rules of ids, a predecessor is of an earlier revision.
pub fn predecessors_are_earlier()
    ensures { PredecessorsAreEarlier }
{}

/// Where the bytes show trees and obey the rules of ids, the trees are those of a history: the first has `/` alone, and each later
/// one follows the one before it by its numbers, its properties and its sources.
pub fn shown_trees_are_a_history()
    ensures { ShownTreesAreRevisions }
{}

/// What is shown of a revision, and the rules of ids up to it, depend on the bytes of no later revision.
pub fn later_bytes_change_nothing()
    ensures { LaterBytesChangeNothing }
{}
