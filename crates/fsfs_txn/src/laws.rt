//! Laws of what a transaction stands for.
ghost use Rattle.fsfs_txn.specs.Items.{ItemsSayMarks};

/// The items of a transaction's `changes` file are those of its marks, in turn. So `fold` of `fsfs_edit` makes of them the changed
/// paths that the flat model has of the marks.
pub fn items_say_marks()
    ensures { ItemsSayMarks }
{}
