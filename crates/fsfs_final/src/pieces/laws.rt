//! Laws of what was put. These functions do nothing: what they ensure is proved once for all bytes.
ghost use Rattle.fsfs_final.specs.Pieces.Lists.{PutListsAreFramed};
ghost use Rattle.fsfs_final.specs.Pieces.Nodes.{DraftTextsStandBefore, PutNodesAreLaid};
ghost use Rattle.fsfs_final.specs.Pieces.Endings.{PutEndsAreRead};

/// A list that was put is read by its representation, behind the bytes of the prototype file.
pub fn put_lists_are_framed()
    ensures { PutListsAreFramed }
{}

/// A draft's node-revision that was put is laid in the revision, final, with its lists.
pub fn put_nodes_are_laid()
    ensures { PutNodesAreLaid }
{}

/// The text of a whole draft's own node-revision stands in the prototype file or in a revision before the new one, if not in a
/// file of its own.
pub fn draft_texts_stand_before()
    ensures { DraftTextsStandBefore }
{}

/// Bytes at whose end the changed paths and the trailer were put have these changed paths and this root.
pub fn put_ends_are_read()
    ensures { PutEndsAreRead }
{}
