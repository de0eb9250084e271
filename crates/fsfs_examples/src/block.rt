// Blocks: lines that are run again and again over the same files, with a call failing or a file cut.
use crate::files::{Files, copy_of};
use crate::line::{Each, Line, Place};
use crate::stage::{IMAGES, Stage, Whole};
use crate::transcript::put_ended;
use fsfs_memory::Transcript;
use std::alloc::AllocError;
use std::collections::{BTreeMap, BTreeSet};
use std::fmt::Display;
use std::mem;
use std::sync::Wait;
use std::thread::Threads;

/// So many calls of a block's first command can fail in turn.
const MOST_CALLS: u64 = 4096;

/// The lines of a block, and the number of the first.
#[derive(Clone, Copy)]
pub struct Block<'a> {
    pub first: usize,
    pub lines: &'a [&'a str],
}

// What a block is run over: these files, with a call of the first command failing, or none.
#[derive(Clone, Copy)]
struct Start<'a> {
    files: &'a Files,
    place: Place,
    call: Option<u64>,
}

fn is_crash(line: &str) -> bool {
    match Line::read(line) {
        Ok(Line::CrashEach) => true,
        _ => false,
    }
}

// Runs the lines of a block up to the one that crashes. How many these are.
fn play_front<T: Threads + Wait + Sync>(
    rt: &T,
    stage: &mut Stage,
    block: Block<'_>,
    start: Start<'_>,
) -> Result<usize, AllocError> {
    stage.files = copy_of(stage.alloc, start.files)?;
    stage.given.place = start.place;
    stage.given.calls = Vec::new(stage.alloc);
    if let Some(call) = start.call {
        stage.given.calls.push(call)?;
    }
    for (at, line) in block.lines.iter().enumerate() {
        if is_crash(line) {
            return Ok(at);
        }
        stage.play(rt, block.first.saturating_add(at), line);
    }
    Ok(block.lines.len())
}

// Runs the lines of a block behind the one that crashes.
fn play_behind<T: Threads + Wait + Sync>(
    rt: &T,
    stage: &mut Stage,
    block: Block<'_>,
    crash: usize,
) {
    for (at, line) in block.lines.iter().enumerate().skip(crash.saturating_add(1)) {
        stage.play(rt, block.first.saturating_add(at), line);
    }
}

// Runs a block anew, its last lines over the files that this image has left, and what these print; none where the same files were seen
// before.
fn play_image<T: Threads + Wait + Sync>(
    rt: &T,
    stage: &mut Stage,
    block: Block<'_>,
    start: Start<'_>,
    image: u64,
    seen: &mut BTreeSet<String>,
) -> Result<Option<String>, AllocError> {
    let out = mem::replace(&mut stage.out, Transcript::new(stage.alloc));
    let crash = play_front(rt, stage, block, start)?;
    stage.out.clear();
    stage.crash_to(block.first.saturating_add(crash), image);
    let is_new = seen.insert(stage.files_as_text()?)?;
    if is_new {
        play_behind(rt, stage, block, crash);
    }
    let told = mem::replace(&mut stage.out, out).finish()?;
    Ok(if is_new { Some(told) } else { None })
}

// Prints what the lines behind a crash print over each image that it may leave: each text once, in the order of their bytes.
fn play_images<T: Threads + Wait + Sync>(
    rt: &T,
    stage: &mut Stage,
    block: Block<'_>,
    start: Start<'_>,
) -> Result<(), AllocError> {
    let mut seen = BTreeSet::new(stage.alloc);
    let mut texts = BTreeSet::new(stage.alloc);
    for image in 0..IMAGES {
        if let Some(text) = play_image(rt, stage, block, start, image, &mut seen)? {
            texts.insert(text)?;
        }
    }
    stage.out.say("crash each\n");
    for (at, text) in texts.iter().enumerate() {
        if at > 0 {
            stage.out.say("or\n");
        }
        stage.out.say(text.as_str());
    }
    Ok(())
}

// Runs a block. What it prints.
fn play_block<T: Threads + Wait + Sync>(
    rt: &T,
    stage: &mut Stage,
    block: Block<'_>,
    start: Start<'_>,
) -> Result<Transcript, AllocError> {
    let out = mem::replace(&mut stage.out, Transcript::new(stage.alloc));
    let crash = play_front(rt, stage, block, start)?;
    if crash < block.lines.len() {
        play_images(rt, stage, block, start)?;
    }
    Ok(mem::replace(&mut stage.out, out))
}

// Prints what a block printed for this call or length, but where it is the same as for the one before.
fn put_row<N: Display>(out: &mut Transcript, number: &N, told: Transcript, last: &mut Transcript) {
    if told.as_str() != last.as_str() {
        out.tell("from ", number);
        out.say("\n");
        out.say(told.as_str());
        *last = told;
    }
}

// Whether the call that was to fail is past the last one.
fn is_past(stage: &Stage, place: Place, call: u64, told: &Transcript, whole: &Transcript) -> bool {
    match place {
        Place::Disk | Place::Stop => stage.calls < call,
        Place::Bench => stage.bench_faults == 0,
        _ => told.as_str() == whole.as_str(),
    }
}

// Runs a block with each call of its first command failing in turn.
fn play_calls<T: Threads + Wait + Sync>(
    rt: &T,
    stage: &mut Stage,
    block: Block<'_>,
    files: &Files,
    place: Place,
    whole: &Transcript,
) -> Result<(), AllocError> {
    let mut last = Transcript::new(stage.alloc);
    for call in 1..=MOST_CALLS {
        let start = Start {
            files,
            place,
            call: Some(call),
        };
        let told = play_block(rt, stage, block, start)?;
        if is_past(stage, place, call, &told, whole) {
            return Ok(());
        }
        put_row(&mut stage.out, &call, told, &mut last);
    }
    Ok(())
}

// What a block prints where the open file has this length; the end is so many bytes behind the first length.
fn play_length<T: Threads + Wait + Sync>(
    rt: &T,
    stage: &mut Stage,
    block: Block<'_>,
    files: &Files,
    length: usize,
    end: usize,
) -> Result<Transcript, AllocError> {
    stage.files = copy_of(stage.alloc, files)?;
    stage.cut(length);
    let cut = mem::replace(&mut stage.files, BTreeMap::new(stage.alloc));
    let start = Start {
        files: &cut,
        place: Place::Disk,
        call: None,
    };
    let told = play_block(rt, stage, block, start)?;
    let mut number = Transcript::new(stage.alloc);
    number.show(&end);
    let mut out = Transcript::new(stage.alloc);
    put_ended(&mut out, told.as_str(), number.as_str());
    Ok(out)
}

// Runs a block with the open file cut at each length in turn, from this one on.
fn play_lengths<T: Threads + Wait + Sync>(
    rt: &T,
    stage: &mut Stage,
    block: Block<'_>,
    files: &Files,
    first: usize,
) -> Result<(), AllocError> {
    let mut last = Transcript::new(stage.alloc);
    for length in first..stage.length() {
        let end = length.saturating_sub(first);
        let told = play_length(rt, stage, block, files, length, end)?;
        put_row(&mut stage.out, &length, told, &mut last);
    }
    Ok(())
}

// Runs a block where no call fails and nothing is cut.
fn play_whole<T: Threads + Wait + Sync>(
    rt: &T,
    stage: &mut Stage,
    block: Block<'_>,
    files: &Files,
) -> Result<Transcript, AllocError> {
    let start = Start {
        files,
        place: Place::Disk,
        call: None,
    };
    play_block(rt, stage, block, start)
}

// Prints the line that begins a block.
fn put_headline(out: &mut Transcript, each: Each) {
    match each {
        Each::Call(place) => {
            out.say("each ");
            out.say(place.word());
        }
        Each::Length(first) => out.tell("each length ", &first),
    }
    out.say("\n");
}

/// Runs a block for each call or length in turn, and then with no call failing and nothing cut. What is printed for some beside
/// one another, and is the same, is printed once.
pub fn play_each<T: Threads + Wait + Sync>(
    rt: &T,
    stage: &mut Stage,
    block: Block<'_>,
    each: Each,
) -> Result<(), AllocError> {
    let files = copy_of(stage.alloc, &stage.files)?;
    put_headline(&mut stage.out, each);
    stage.whole = Whole::Asked;
    let whole = play_whole(rt, stage, block, &files)?;
    stage.files = copy_of(stage.alloc, &files)?;
    match each {
        Each::Call(place) => play_calls(rt, stage, block, &files, place, &whole)?,
        Each::Length(first) => play_lengths(rt, stage, block, &files, first)?,
    }
    stage.whole = Whole::NotAsked;
    stage.files = files;
    stage.out.say("then\n");
    stage.out.say(whole.as_str());
    stage.out.say("end\n");
    Ok(())
}
