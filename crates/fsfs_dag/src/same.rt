//! Whether two ids are one, by their numbers.
ghost use Rattle.std.specs.Prelude.{◌≡◌};
ghost use Rattle.fsfs_dag.specs.Same.{same_part, same_place, same_id};

use fsfs_noderev::{NodeId, Part, Place};

/// Whether two parts of ids are one.
pub fn same_part(a: Part, b: Part) -> bool
    ensures { result ≡ same_part a b }
{
    match a {
        Part::New(m) => match b {
            Part::New(n) => m.number == n.number,
            _ => false,
        },
        Part::Old(m) => match b {
            Part::Old(n) => m.number == n.number,
            _ => false,
        },
        Part::Made(m, made) => match b {
            Part::Made(n, rev) => m.number == n.number && made.get() == rev.get(),
            _ => false,
        },
    }
}

// Whether two places are one.
fn same_place(a: Place, b: Place) -> bool
    ensures { result ≡ same_place a b }
{
    match a {
        Place::At(rev, offset) => match b {
            Place::At(other, place) => rev.get() == other.get() && offset == place,
            Place::In(_) => false,
        },
        Place::In(txn) => match b {
            Place::At(_, _) => false,
            Place::In(other) => {
                txn.base.get() == other.base.get() && txn.number.number == other.number.number
            }
        },
    }
}

/// Whether two ids are one.
pub fn same_id(a: &NodeId, b: &NodeId) -> bool
    ensures { result ≡ same_id a.now b.now }
{
    same_part(a.node, b.node) && same_part(a.copy, b.copy) && same_place(a.place, b.place)
}
