// A whole text of runs, and its blocks.
use crate::line::{Block, Line};
use crate::player::{Named, Player, steps_of};
use crate::step::calls_the_disk;
use fsfs_memory::Transcript;
use std::alloc::{AllocError, Global};

// What a block prints in a run with these lines before it, after these steps, and after the next has failed.
fn told(
    alloc: Global,
    named: &[Named<'_>],
    before: &[&str],
    block: &[&str],
    steps: &[&str],
    failing: Option<&str>,
) -> Result<Transcript, AllocError> {
    let mut player = Player::new(alloc)?;
    for line in before {
        player.play(named, line);
    }
    player.out.clear();
    let done = player.run(steps);
    player.told("steps", done);
    if let Some(line) = failing {
        let failed = player.fail(line);
        player.told(line, failed);
    }
    for line in block {
        player.play(named, line);
    }
    Ok(player.out)
}

// Prints what is told behind this line, but where the same was told last.
fn put_told(out: &mut Transcript, last: &mut Transcript, word: &str, line: &str, told: Transcript) {
    if told.as_str() != last.as_str() {
        out.say(word);
        out.say(line);
        out.say("\n");
        out.say(told.as_str());
        *last = told;
    }
}

// Plays a block after each of these steps. What is printed of steps beside one another that give the same is printed once.
fn play_after(
    alloc: Global,
    out: &mut Transcript,
    named: &[Named<'_>],
    before: &[&str],
    block: &[&str],
    steps: &[&str],
) -> Result<(), AllocError> {
    let mut last = Transcript::new(alloc);
    for (at, line) in steps.iter().enumerate() {
        let done = steps.get(..at.saturating_add(1)).unwrap_or(steps);
        let told = told(alloc, named, before, block, done, None)?;
        put_told(out, &mut last, "after ", line, told);
    }
    Ok(())
}

// The same, where each of these steps that calls the disk fails in each way.
fn play_faults(
    alloc: Global,
    out: &mut Transcript,
    named: &[Named<'_>],
    before: &[&str],
    block: &[&str],
    steps: &[&str],
) -> Result<(), AllocError> {
    let mut last = Transcript::new(alloc);
    for (at, line) in steps.iter().enumerate() {
        if !calls_the_disk(line) {
            continue;
        }
        let done = steps.get(..at).unwrap_or(steps);
        for way in ["before", "after", "torn"] {
            let failing = format!(in alloc; "{line} {way}")?;
            let told = told(alloc, named, before, block, done, Some(failing.as_str()))?;
            put_told(out, &mut last, "fault ", failing.as_str(), told);
        }
    }
    Ok(())
}

// Plays a block whose first line is this one, and whose other lines are those.
fn play_block(
    alloc: Global,
    out: &mut Transcript,
    named: &[Named<'_>],
    before: &[&str],
    first: &str,
    block: &[&str],
) -> Result<(), AllocError> {
    let (name, faults) = match Line::read(first) {
        Line::Begin(Block::After(name)) => (name, false),
        Line::Begin(Block::Faults(name)) => (name, true),
        _ => return Ok(()),
    };
    out.say(first);
    out.say("\n");
    match steps_of(named, name) {
        Ok(steps) if faults => play_faults(alloc, out, named, before, block, steps)?,
        Ok(steps) => play_after(alloc, out, named, before, block, steps)?,
        Err(error) => {
            out.tell("? ", &error);
            out.say("\n");
        }
    }
    out.say("end\n");
    Ok(())
}

// What is printed of these lines.
fn play_lines<'a>(alloc: Global, lines: &'a [&'a str]) -> Result<String, AllocError> {
    let mut named = Vec::new(alloc);
    let mut player = Player::new(alloc)?;
    // The first line of the run, that of its first block, and that of the block that is read.
    let mut run = 0;
    let mut first_block: Option<usize> = None;
    let mut begun: Option<usize> = None;
    for (at, line) in lines.iter().enumerate() {
        match (Line::read(line), begun) {
            (Line::Run(name), None) => {
                player.begin(name)?;
                run = at.saturating_add(1);
                first_block = None;
            }
            (Line::Begin(_), None) => begun = Some(at),
            (Line::End, Some(start)) => {
                let before = lines.get(run..first_block.unwrap_or(start)).unwrap_or(&[]);
                let block = lines.get(start..at).unwrap_or(&[]);
                if let Some((first, block)) = block.split_first() {
                    match Line::read(first) {
                        Line::Begin(Block::Steps(name)) => named.push(Named {
                            name,
                            steps: block,
                        })?,
                        _ => play_block(alloc, &mut player.out, &named, before, first, block)?,
                    }
                }
                first_block = first_block.or(Some(start));
                begun = None;
            }
            (_, Some(_)) => {}
            (_, None) => player.play(&named, line),
        }
    }
    if begun.is_some() {
        player.out.say("? the last block does not end\n");
    }
    player.out.finish()
}

/// What is printed of a text of runs.
pub fn transcript_of(alloc: Global, text: &str) -> Result<String, AllocError> {
    let lines: Vec<&str> = text.lines().collect(alloc)?;
    play_lines(alloc, &lines)
}
