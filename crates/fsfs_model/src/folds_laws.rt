//! The law. This function does nothing: what it ensures is proved once for all.
ghost use Rattle.fsfs_model.specs.FoldedFit.{FoldsFit};

/// What a folded change deletes is not in the transaction's tree, nor in that of its landing; what it adds, replaces or modifies is there,
/// and of its kind.
pub fn folds_fit_the_tree()
    ensures { FoldsFit }
{}
