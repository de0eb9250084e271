//! Printing what became of the jobs of a script. It takes no memory.
ghost use Rattle.std.specs.Prelude.{◌≡◌};
ghost use Rattle.fsfs_base.specs.Output.{Prints};
ghost use Rattle.fsfs_jobs.specs.Lines.{ending_text, job_lines, run_text};

use fsfs_base::{Failed, RevNum, Sink};
use fsfs_jobs::{Ending, JobAnswer, print_job_line, print_packed, print_sound, print_youngest};

// Writes a line for each answer, numbered from 1 on.
fn print_answers<S: Sink>(sink: &mut S, answers: &[JobAnswer]) -> Result<(), Failed>
    ensures printed { Prints (S.written sink.old) (S.written sink.new) (job_lines 1 answers.now) (S.faults sink.old) (S.faults sink.new) result }
{
    let mut number: u64 = 0;
    for answer in answers {
        number += 1;
        print_job_line(sink, number, answer)?;
    }
    Ok(())
}

// Writes what is told behind the lines of the jobs: how many shards were packed, where the run packs; that a check found nothing
// wrong, where one did; and the youngest revision.
fn print_ending<S: Sink>(sink: &mut S, ending: Ending, youngest: RevNum) -> Result<(), Failed>
    ensures printed { Prints (S.written sink.old) (S.written sink.new) (ending_text ending youngest) (S.faults sink.old) (S.faults sink.new) result }
{
    print_packed(sink, ending.packed)?;
    print_sound(sink, ending.sound, youngest)?;
    print_youngest(sink, youngest)
}

/// Writes all that is told of a run: a line for each job's answer, one of the packs where it packs, one of the check behind the jobs where
/// that found nothing wrong, and the youngest revision; or where the sink fails a first part of it. Without a check it is told of none.
pub fn print_run<S: Sink>(
    sink: &mut S,
    answers: &[JobAnswer],
    ending: Ending,
    youngest: RevNum,
) -> Result<(), Failed>
    ensures printed { Prints (S.written sink.old) (S.written sink.new) (run_text answers.now ending youngest) (S.faults sink.old) (S.faults sink.new) result }
{
    print_answers(sink, answers)?;
    print_ending(sink, ending, youngest)
}
