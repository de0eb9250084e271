//! What a merge sees of an entry, and what it does there.
ghost use Rattle.std.specs.Prelude.{◌≡◌};
ghost use Rattle.fsfs_merge.specs.Walks.{merges, is_stopped, stays};

/// What a merge sees of an entry of three directories: the base's, the head's and the transaction's.
#[derive(Clone, Copy)]
pub struct Sight {
    pub in_base: bool,
    pub in_head: bool,
    pub in_own: bool,
    /// The head has the base's id.
    pub head_same: bool,
    /// The transaction has the base's id.
    pub own_same: bool,
    /// All three are directories, and both sides go on from the base's.
    pub goes_on: bool,
    /// Both sides have the base's representation of properties.
    pub same_props: bool,
}

impl Sight {
    /// The three directories are merged: the walk goes down.
    pub fn merges(self) -> bool
        ensures { result ≡ merges self }
    {
        self.in_base && !self.head_same && !self.own_same && self.goes_on
    }

    /// The two clash here: both changed what the base has and it can't be merged, or both have what the base lacks.
    pub fn is_stopped(self) -> bool
        ensures { result ≡ is_stopped self }
    {
        if self.in_base {
            !self.head_same && !self.own_same && !(self.goes_on && self.same_props)
        } else {
            self.in_head && self.in_own
        }
    }

    /// The transaction's entry stays, or its absence; else the head's is taken.
    pub fn stays(self) -> bool
        ensures { result ≡ stays self }
    {
        if self.in_base {
            self.head_same || (!self.own_same && self.goes_on)
        } else {
            self.in_own
        }
    }
}
