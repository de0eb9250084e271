//! Offsets in the new revision.
ghost use Rattle.std.specs.Prelude.{◌≡◌, ◌+◌, ◌≤◌, ◌^◌, IfOk, OnErr};

use std::alloc::AllocError;

/// Where the next byte of the revision stands, behind so many bytes and further ones. An `Err` is for an offset that there is
/// no number of 64 bits for.
pub(crate) fn end_at(start: u64, more: usize) -> Result<u64, AllocError>
    ensures end { IfOk result (λ end. end ≡ start + more) }
    ensures far { OnErr result (2 ^ 64 ≤ start + more) }
{
    match start.checked_add(more as u64) {
        Some(end) => Ok(end),
        None => Err(AllocError),
    }
}
