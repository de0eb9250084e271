//! A node-revision that a reading came to.
ghost use Rattle.std.specs.Prelude.{◌≡◌, true, None, Some, MatchOption, IfSome, IsSome};
ghost use Rattle.fsfs_noderev.specs.declared.rep.Contents.TheVariants.{At};
ghost use Rattle.fsfs_revision.specs.Nodes.{is_ordered, rep_before, rep_place_before};
ghost use Rattle.fsfs_revision.specs.Shows.Reading.{offset_of};

use crate::places::offset_of;
use fsfs_noderev::{Contents, NodeRev, Rep};
use fsfs_revision::RevOffset;

/// A node-revision that a reading came to, at the place that its id says. What it names stands before it.
#[derive(Drop)]
pub struct PlacedNode {
    pub node: NodeRev,
    pub ghost ordered: { is_ordered (offset_of node.id.place) node ≡ true },
}

// The representation of a part of a node-revision at this place.
fn rep_in(at: RevOffset, contents: &Option<Contents>) -> Option<&Rep>
    requires { rep_before at contents.now ≡ true }
    ensures value { MatchOption result (contents.now ≡ None) (λ rep. contents.now ≡ Some (At rep.now)) }
    ensures before { IfSome result (λ rep. rep_place_before at rep.now.rev rep.now.offset ≡ true) }
{
    match contents {
        None => None,
        Some(Contents::Own) => unreachable!(),
        Some(Contents::At(rep)) => Some(rep),
    }
}

impl PlacedNode {
    /// Where it stands.
    pub fn place(&self) -> RevOffset
        ensures { result ≡ offset_of self.now.node.id.place }
    {
        offset_of(self.node.id.place)
    }

    /// The representation of its text or its entries; none: it is empty.
    pub fn text(&self) -> Option<&Rep>
        ensures value { MatchOption result (self.now.node.text ≡ None) (λ rep. self.now.node.text ≡ Some (At rep.now)) }
        ensures before { IfSome result (λ rep. rep_place_before (offset_of self.now.node.id.place) rep.now.rev rep.now.offset ≡ true) }
    {
        rep_in(self.place(), &self.node.text)
    }

    /// The representation of its properties; none: it has none.
    pub fn props(&self) -> Option<&Rep>
        ensures value { MatchOption result (self.now.node.props ≡ None) (λ rep. self.now.node.props ≡ Some (At rep.now)) }
        ensures before { IfSome result (λ rep. rep_place_before (offset_of self.now.node.id.place) rep.now.rev rep.now.offset ≡ true) }
    {
        rep_in(self.place(), &self.node.props)
    }
}
