//! Laws of the prototype revision file. These functions do nothing: what they ensure is proved once for all.
ghost use Rattle.fsfs_txn_files.specs.ProtoRev.Laws.{TextsAreRead, TextsStay};

/// A text that was appended is read by its representation.
pub fn appended_texts_are_read()
    ensures { TextsAreRead }
{}

/// A text that is read stays so, whatever is appended behind it.
pub fn texts_stay()
    ensures { TextsStay }
{}
