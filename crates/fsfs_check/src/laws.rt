//! A law. This function does nothing: what it ensures is proved once for all files.
ghost use Rattle.fsfs_check.specs.Open.{SoundHistoriesAreOpen};

/// Where a check finds nothing wrong, no text of the history that the files stand for, up to that revision, is a delta.
pub fn sound_histories_are_open()
    ensures { SoundHistoriesAreOpen }
{}
