//! Laws of drafts beside a prototype file. These functions do nothing: what they ensure is proved once for all.
ghost use Rattle.fsfs_txn.specs.Opened.Growing.{DraftsGrow};

/// A draft stays one of the same tree and marks, whatever is put at the end of its prototype file: those bytes are in no text until one
/// is set.
pub fn drafts_grow()
    ensures { DraftsGrow }
{}
