//! The law. The function does nothing: what it ensures is proved once for all.
ghost use Rattle.fsfs_txn_nodes.specs.TxnFolder.Telling.{ChangesTell};

/// Where the files tell what a transaction's folder holds, they do so after the changes that go with a step of an edit, of what the
/// folder holds then.
pub fn changes_tell_the_folder()
    ensures { ChangesTell }
{}
