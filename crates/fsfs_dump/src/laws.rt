//! The laws of dumps. Each of these functions does nothing: what it ensures is proved once for all bytes.
ghost use Rattle.fsfs_dump.specs.Laws.{DumpsHaveOneText, DumpsAreByTheHistory};

/// Whatever the bytes are, one text at most is written, which ends for one cause; where a failure stops it, a first part of it
/// was written.
pub fn dumps_have_one_text()
    ensures { DumpsHaveOneText }
{}

/// Where files stand for a history, what is written is the dump of that history: whole, or up to a text that is a delta, which
/// is told at its place.
pub fn dumps_are_by_the_history()
    ensures { DumpsAreByTheHistory }
{}
