//! The date of a revision.
ghost use Rattle.std.specs.Prelude.{◌≤◌, IfOk};
ghost use Rattle.fsfs_tree.specs.Dated.{IsDated};
ghost use Rattle.fsfs_commit.specs.Transaction.Dating.{IsDatedAt};

use fsfs_base::{Pairs, write_date};
use std::alloc::{AllocError, Global};

/// The properties of a revision with its date, whatever they had as one: a moment in microseconds after 1970-01-01T00:00:00 UTC, in
/// a year up to 2099.
pub fn dated(alloc: Global, properties: Pairs, micros: u64) -> Result<Pairs, AllocError>
    requires { micros ≤ 4102444799999999 }
    ensures date { IfOk result (λ p. IsDatedAt micros properties p) }
    ensures form { IfOk result IsDated }
{
    let mut properties = properties;
    let name = Vec::from_slice(alloc, b"svn:date")?;
    let date = write_date(alloc, micros)?;
    properties.set(name, date)?;
    Ok(properties)
}
