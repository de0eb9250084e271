//! The law. This function does nothing: what it ensures is proved once for all bytes.
ghost use Rattle.fsfs_commit.specs.FinalRev.FinalBytes.{FinalBytesAreEnough};

/// Where a history's bytes and property files are shown, and behind them stand the bytes of a transaction on its youngest revision,
/// written as the next one, and that one's property file, the history with that revision is shown.
pub fn final_bytes_are_enough()
    ensures { FinalBytesAreEnough }
{}
