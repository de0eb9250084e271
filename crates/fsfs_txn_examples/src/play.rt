// A whole text of examples.
use crate::stage::Stage;
use fsfs_memory::{Example, Transcript, examples_of, lines_of};
use std::alloc::{AllocError, Global};
use std::sync::Wait;
use std::thread::Threads;

fn call_lines<T: Threads + Wait + Sync>(
    rt: &T,
    stage: Stage,
    lines: &[&str],
    out: &mut Transcript,
) -> Stage {
    let mut stage = stage;
    for line in lines {
        out.say(line);
        out.say(": ");
        stage = stage.call(rt, line, out);
        if !out.as_str().ends_with("\n") {
            out.say("\n");
        }
    }
    stage
}

// The stage behind the lines with which each example begins.
fn set_stage<T: Threads + Wait + Sync>(rt: &T, alloc: Global, first: &[&str]) -> Stage {
    let mut unseen = Transcript::new(alloc);
    call_lines(rt, Stage::new(alloc), first, &mut unseen)
}

// What the lines answer, one behind the other, where this call of each bench fails; none follows a transaction that did not begin.
fn play_failing<T: Threads + Wait + Sync>(
    rt: &T,
    alloc: Global,
    first: &[&str],
    lines: &[&str],
    number: u64,
    out: &mut Transcript,
) {
    let mut stage = set_stage(rt, alloc, first).failing(number, out);
    for line in lines {
        out.say(", ");
        stage = stage.call(rt, line, out);
        if line.starts_with("begin ") && out.as_str().ends_with("BenchFault") {
            return;
        }
    }
}

// No example makes so many calls of a bench.
const MOST_CALLS: u64 = 200;

// Plays the lines once for each call of a bench that fails, up to the first number where none does. A row that is as that before is
// left out.
fn play_each<T: Threads + Wait + Sync>(
    rt: &T,
    alloc: Global,
    first: &[&str],
    lines: &[&str],
    out: &mut Transcript,
) {
    let mut last = Transcript::new(alloc);
    for number in 1..=MOST_CALLS {
        let mut row = Transcript::new(alloc);
        play_failing(rt, alloc, first, lines, number, &mut row);
        if row.as_str() != last.as_str() {
            out.show(&number);
            out.say(row.as_str());
            out.say("\n");
        }
        if !row.as_str().contains("BenchFault") {
            return;
        }
        last = row;
    }
}

// Plays an example behind the lines with which it begins.
fn play_example<T: Threads + Wait + Sync>(
    rt: &T,
    alloc: Global,
    example: Example<'_>,
    out: &mut Transcript,
) {
    let first = example.first;
    out.say(example.headline);
    out.say("\n");
    match example.lines.split_first() {
        Some((line, lines)) if *line == "failing each" => play_each(rt, alloc, first, lines, out),
        _ => {
            let _ = call_lines(rt, set_stage(rt, alloc, first), example.lines, out);
        }
    }
}

/// Plays a text of examples.
pub fn play<T: Threads + Wait + Sync>(
    rt: &T,
    alloc: Global,
    text: &str,
    out: &mut Transcript,
) -> Result<(), AllocError> {
    let lines = lines_of(alloc, text)?;
    for example in examples_of(alloc, &lines)? {
        play_example(rt, alloc, example, out);
    }
    Ok(())
}
