//! What the three sides of a merge have at a path.
ghost use Rattle.std.specs.Prelude.{◌≡◌};
ghost use Rattle.fsfs_merge.specs.Clash.Threes.{has_id, is_changed, is_made, is_of, is_taken, takes_head};

use fsfs_base::Kind;
use fsfs_dag::same_id;
use fsfs_noderev::NodeId;

/// The node-revision that an entry names.
#[derive(Clone, Copy)]
pub(crate) struct Target {
    pub kind: Kind,
    pub id: NodeId,
}

/// What the base, the head and the transaction have at a path; none: nothing.
#[derive(Clone, Copy)]
pub(crate) struct Three {
    pub base: Option<Target>,
    pub head: Option<Target>,
    pub own: Option<Target>,
}

fn has_id(base: &Target, side: &Option<Target>) -> bool
    ensures { result ≡ has_id base.now side.now }
{
    match side {
        None => false,
        Some(side) => same_id(&base.id, &side.id),
    }
}

impl Three {
    /// Both sides changed what the base has, or both have something where it has nothing.
    pub(crate) fn is_changed(&self) -> bool
        ensures { result ≡ is_changed self.now }
    {
        match &self.base {
            None => self.head.is_some() && self.own.is_some(),
            Some(base) => !has_id(base, &self.head) && !has_id(base, &self.own),
        }
    }

    // Both have something where the base has nothing.
    fn is_made(&self) -> bool
        ensures { result ≡ is_made self.now }
    {
        match &self.base {
            None => self.head.is_some() && self.own.is_some(),
            Some(_) => false,
        }
    }

    /// After a merge the head's is there; else the transaction's.
    pub(crate) fn takes_head(&self) -> bool
        ensures { result ≡ takes_head self.now }
    {
        match &self.base {
            None => self.own.is_none(),
            Some(base) => has_id(base, &self.own) && !has_id(base, &self.head),
        }
    }
}

/// Which paths are put: those that both sides changed, or among these those that both made.
#[derive(Clone, Copy)]
pub(crate) enum Which {
    Changed,
    Made,
}

impl Which {
    pub(crate) fn has(self, three: &Three) -> bool
        ensures { result ≡ is_of self three.now }
    {
        match self {
            Which::Changed => three.is_changed(),
            Which::Made => three.is_made(),
        }
    }
}

/// Whose entries are put where a merge is written.
#[derive(Clone, Copy)]
pub(crate) enum Side {
    Head,
    Own,
}

impl Side {
    /// After a merge its entry is there.
    pub(crate) fn is_taken(self, three: &Three) -> bool
        ensures { result ≡ is_taken self three.now }
    {
        match self {
            Side::Head => three.takes_head(),
            Side::Own => !three.takes_head(),
        }
    }
}
