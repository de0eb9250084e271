//! The laws. A function here does nothing: what it ensures is proved once for all.
ghost use Rattle.fsfs_txn_files.specs.Children.{ChildrenTell};
ghost use Rattle.fsfs_txn_files.specs.FileNames.{NamesAreApart};

/// No two files of the folder have one name.
pub fn names_are_apart()
    ensures { NamesAreApart }
{}

/// Read to its end, a `children` file says the entries that its directory has after all that was put and taken away.
pub fn children_tell_their_entries()
    ensures { ChildrenTell }
{}
