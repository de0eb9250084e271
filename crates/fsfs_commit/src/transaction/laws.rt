//! The law. This function does nothing: what it ensures is proved once for all transactions.
ghost use Rattle.fsfs_commit.specs.Transaction.Laws.{TxnsShowWhatTheyMean};

/// What a transaction shows over the revisions is the tree and the marks of the machine's for which it stands.
pub fn txns_show_what_they_mean()
    ensures { TxnsShowWhatTheyMean }
{}
