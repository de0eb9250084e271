// A whole text of examples.
use crate::{edge, folders, memory};
use anyhow::{Result, bail};
use fsfs_memory::{Example, Transcript, cut, examples_of, lines_of};

// How many lines stand before the first crash.
fn count_calls(lines: &[&str]) -> usize {
    lines
        .iter()
        .position(|line| line.starts_with("crash"))
        .unwrap_or(lines.len())
}

// Plays the lines of an example behind the one that names the disk.
fn play_example(rt: &HostRuntime, start: &str, lines: &[&str], out: &mut Transcript) -> Result<()> {
    let (disk, failing) = cut(start);
    let count = count_calls(lines);
    let calls = lines.get(..count).unwrap_or(&[]);
    let crashes = lines.get(count..).unwrap_or(&[]);
    match disk {
        "memory" => memory::play(rt.alloc(), failing, calls, crashes, out),
        "calls" => edge::play(rt.alloc(), &edge::REPOSITORY, failing, calls, crashes, out),
        "linked-calls" => edge::play_linked(rt.alloc(), failing, calls, crashes, out),
        "bare-calls" => edge::play(rt.alloc(), &["", "db"], failing, calls, crashes, out),
        "no-calls" => edge::play(rt.alloc(), &[""], failing, calls, crashes, out),
        "folder" => folders::play(rt, lines, out),
        _ => bail!("no such disk"),
    }
}

// Plays an example, whose first line names the disk.
fn play_lines(rt: &HostRuntime, example: Example<'_>, out: &mut Transcript) {
    out.say(example.headline);
    out.say("\n");
    let Some((start, inner)) = example.lines.split_first() else {
        return;
    };
    if let Err(error) = play_example(rt, start, inner, out) {
        out.tell("? ", &error);
        out.say("\n");
    }
}

/// What is printed of a text of examples.
pub fn transcript_of(rt: &HostRuntime, text: &str) -> Result<String> {
    let alloc = rt.alloc();
    let lines = lines_of(alloc, text)?;
    let mut out = Transcript::new(alloc);
    for example in examples_of(alloc, &lines)? {
        play_lines(rt, example, &mut out);
    }
    Ok(out.finish()?)
}
