//! A change while it is folded.
ghost use Rattle.std.specs.Prelude.{◌≡◌};

use fsfs_base::Kind;
use fsfs_tree::Change;
use std::alloc::AllocError;

/// A change while it is folded.
#[derive(Drop)]
pub struct Folded {
    pub change: Change,
    /// The kind of what the first delete took away, where the action is a replace.
    pub was: Kind,
}

impl Clone for Folded {
    ghost is_clone = { λ s t. t ≡ s };

    fn clone(&self) -> Result<Folded, AllocError> {
        Ok(Folded {
            change: self.change.clone()?,
            was: self.was,
        })
    }
}
