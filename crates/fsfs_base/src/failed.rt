//! A call of the outside that failed.
ghost use Rattle.std.specs.Prelude.{◌≡◌, ◌≤◌, ◌↔◌, Ok, IsOk, IfOk, OnOk, OnErr};
ghost use Rattle.fsfs_base.specs.Failures.{Rose};

use thiserror::Error;

/// A call of the outside failed, and the count of faults of the object that it was made on rose.
#[derive(Clone, Copy, Debug, PartialEq, Eq, Error)]
#[error("the call failed")]
pub struct Failed;

/// The answer of a call, with its failure counted.
pub fn counted<T, E: Drop>(faults: &mut u64, answer: Result<T, E>) -> Result<T, Failed>
    ensures succeeds { IsOk result ↔ IsOk answer }
    ensures ok { IfOk result (λ value. answer ≡ Ok value) }
    ensures later { faults.old ≤ faults.new }
    ensures kept { OnOk result (faults.new ≡ faults.old) }
    ensures failed { OnErr result (Rose faults.old faults.new) }
{
    match answer {
        Ok(value) => Ok(value),
        Err(_) => {
            *faults = faults.saturating_add(1);
            Err(Failed)
        }
    }
}
