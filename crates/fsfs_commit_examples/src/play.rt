// A whole text of examples.
use crate::lines::play_lines;
use crate::table::put_table;
use fsfs_memory::{Example, Transcript, examples_of, lines_of};
use std::alloc::{AllocError, Global};
use std::sync::Wait;
use std::thread::Threads;

// Plays an example, of which a last line `each LINE` is a table of that call.
fn play_example<T: Threads + Wait + Sync>(
    rt: &T,
    alloc: Global,
    example: Example<'_>,
    out: &mut Transcript,
) {
    out.say(example.headline);
    out.say("\n");
    if let Some((last, lines)) = example.lines.split_last() {
        if let Some(line) = last.strip_prefix("each ") {
            let mut before = example;
            before.lines = lines;
            let _ = play_lines(rt, alloc, before, out);
            out.say(last);
            out.say("\n");
            put_table(rt, alloc, before, line, out);
            return;
        }
    }
    let _ = play_lines(rt, alloc, example, out);
}

/// Plays a text of examples.
pub fn play<T: Threads + Wait + Sync>(
    rt: &T,
    alloc: Global,
    text: &str,
    out: &mut Transcript,
) -> Result<(), AllocError> {
    let lines = lines_of(alloc, text)?;
    for example in examples_of(alloc, &lines)? {
        play_example(rt, alloc, example, out);
    }
    Ok(())
}
