//! The status of a run.
ghost use Rattle.std.specs.Prelude.{◌≡◌, max};
ghost use Rattle.fsfs_jobs.specs.Lines.{greatest_status};

use fsfs_jobs::JobAnswer;

fn greater(a: u8, b: u8) -> u8
    ensures { result ≡ max a b }
{
    if a < b { b } else { a }
}

/// The greatest status that an answer asks for; 0 where there is none.
pub fn greatest_status(answers: &[JobAnswer]) -> u8
    ensures { result ≡ greatest_status answers.now }
{
    let mut greatest = 0;
    for answer in answers {
        greatest = greater(answer.status(), greatest);
    }
    greatest
}
