//! The answers of two workers in the order of the jobs.
ghost use Rattle.std.specs.Prelude.{◌≡◌, ◌+◌, ◌≤◌, [], vec_len, IfOk};
ghost use Rattle.std.specs.Vec.{vec_capacity};
ghost use Rattle.fsfs_workers.specs.InTurn.{in_turn, AreDealt};

use fsfs_jobs::JobAnswer;
use std::alloc::{AllocError, Global};

/// Room for the answers of two workers, and for both's in the order of the jobs.
#[derive(Drop)]
pub(crate) struct Rooms {
    pub(crate) first: Vec<JobAnswer>,
    pub(crate) second: Vec<JobAnswer>,
    pub(crate) both: Vec<JobAnswer>,
}

impl Rooms {
    /// Room for so many.
    pub(crate) fn new(alloc: Global, count: usize) -> Result<Rooms, AllocError>
        ensures empty { IfOk result (λ r. (r.first.items ≡ []) × (r.second.items ≡ []) × (r.both.items ≡ [])) }
        ensures many { IfOk result (λ r. (vec_capacity r.first ≡ count) × (vec_capacity r.second ≡ count) × (vec_capacity r.both ≡ count)) }
    {
        Ok(Rooms {
            first: Vec::with_capacity(alloc, count)?,
            second: Vec::with_capacity(alloc, count)?,
            both: Vec::with_capacity(alloc, count)?,
        })
    }
}

/// The answers in turn, one of the first worker, one of the second, and so on, in the room for both's.
pub(crate) fn in_order(
    firsts: Vec<JobAnswer>,
    seconds: Vec<JobAnswer>,
    mut answers: Vec<JobAnswer>,
) -> Vec<JobAnswer>
    requires dealt { AreDealt (vec_len firsts) (vec_len seconds) }
    requires room { (answers.items ≡ []) × (vec_len firsts + vec_len seconds ≤ vec_capacity answers) }
    ensures { result.items ≡ in_turn firsts.items seconds.items }
{
    let mut others = seconds.into_iter();
    for answer in firsts {
        answers.push_reserved(answer);
        if let Some(other) = others.next() {
            answers.push_reserved(other);
        }
    }
    answers
}
