// A whole text of examples of two workers.
use crate::example::{Example, play_way};
use crate::ways::read_way;
use fsfs_memory::Transcript;
use std::alloc::Global;
use std::sync::Wait;
use std::thread::Threads;

// A way to run the script of an example: a line that says how, and the answers that are allowed.
fn play_lines<T: Threads + Wait + Sync>(
    rt: &T,
    alloc: Global,
    example: Example<'_>,
    lines: &str,
    seen: &mut Transcript,
    out: &mut Transcript,
) {
    let (line, allowed) = lines.split_once('\n').unwrap_or((lines, ""));
    out.say(line);
    out.say(": ");
    match read_way(alloc, line) {
        Ok(Some(way)) => play_way(rt, alloc, example, &way, allowed, seen, out),
        Ok(None) => out.say("? no such way\n"),
        Err(_) => out.lose(),
    }
}

// The words of svnjobs by which a script is run, where its first line has some, and the script.
fn words_of(text: &str) -> (&str, &str) {
    match text.strip_prefix("svnjobs ") {
        Some(rest) => rest.split_once('\n').unwrap_or((rest, "")),
        None => ("R -j 2", text),
    }
}

// An example: the script that one worker runs first, the one that two run, or as its first line says, what is looked at behind that, and
// each way to run it, with a line `--` between.
fn play_parts<T: Threads + Wait + Sync>(rt: &T, alloc: Global, parts: &str, out: &mut Transcript) {
    let (before, rest) = parts.split_once("--\n").unwrap_or((parts, ""));
    let (text, rest) = rest.split_once("--\n").unwrap_or((rest, ""));
    let (looks, ways) = rest.split_once("--\n").unwrap_or((rest, ""));
    let (words, script) = words_of(text);
    let example = Example {
        before,
        words,
        script,
        looks,
    };
    let mut seen = Transcript::new(alloc);
    for way in ways.split("--\n") {
        play_lines(rt, alloc, example, way, &mut seen, out);
    }
    out.say(seen.as_str());
}

/// Plays a text of examples, each behind a headline.
pub fn play<T: Threads + Wait + Sync>(rt: &T, alloc: Global, text: &str, out: &mut Transcript) {
    for example in text.split("== ").skip(1) {
        let (headline, parts) = example.split_once('\n').unwrap_or((example, ""));
        out.headline(headline);
        play_parts(rt, alloc, parts, out);
    }
}
