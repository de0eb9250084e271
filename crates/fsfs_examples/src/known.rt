// A script that is run over a repository that was just made, so that it is known to stand for a history.
ghost use Rattle.std.specs.Prelude.{ℕ, List, map, string_bytes, IfSome, IsTrue};
ghost use Rattle.fsfs_cli.specs.Readings.{Asks};
ghost use Rattle.fsfs_cli.specs.declared.request.JobRun.{JobRun};
ghost use Rattle.fsfs_cli.specs.declared.request.Task.TheVariants.{RunJobs};
ghost use Rattle.fsfs_cli.specs.declared.tool.Tool.TheVariants.{Jobs};
ghost use Rattle.fsfs_example_calls.specs.Scenes.{scene, sink_scene, source_scene};
ghost use Rattle.fsfs_examples.specs.KnownRuns.{IsMade, RanOverNew};

use crate::machine::put_run;
use fsfs_base::{Clock, Dice, Gate, Sink, Source};
use fsfs_cli::read_words;
use fsfs_create::create;
use fsfs_disk::{Access, Disk, Host};
use fsfs_example_calls::{Ran, Tool, command};
use fsfs_layout::Layout;
use fsfs_memory::{FixedClock, FixedDice, MemHost, MemSink, MemSource, Transcript};
use std::alloc::{AllocError, Global};
use std::sync::Wait;
use std::thread::Threads;
use uuid::Builder;

// Makes a repository, of two revisions in a shard, at the path that these words of svnjobs name. Whether it was made.
fn make<H: Host, C: Clock, R: Dice>(
    alloc: Global,
    words: &[String],
    host: &mut H,
    clock: &mut C,
    dice: &mut R,
) -> bool
    ensures { IsTrue result → (repos : List ℕ) (run : JobRun) → Asks Jobs (map string_bytes words.now) repos (RunJobs run) → IsMade (C.next clock.old) (H.disk_at host.new repos) }
{
    let Ok(request) = read_words(alloc, Tool::Jobs, words) else {
        return false;
    };
    let Ok(mut disk) = host.mount(request.repos, Access::Create) else {
        return false;
    };
    let moment = clock.micros();
    let identifier = Builder::from_random_bytes(dice.bytes16()).into_uuid();
    let made = create(alloc, &mut disk, identifier, Layout::sharded(2), moment);
    host.unmount(disk);
    made.is_ok()
}

// Makes a repository at the path that these words of svnjobs name, and does what they ask for over it, as over one that is known to stand for
// a history. The status; `None`: nothing was made.
fn run_known<
    T: Threads + Wait + Sync,
    H: Host,
    I: Source,
    O: Sink,
    E: Sink,
    C: Clock,
    R: Dice,
    G: Gate + Sync,
>(
    rt: &T,
    alloc: Global,
    words: &[String],
    host: &mut H,
    input: &mut I,
    out: &mut O,
    err: &mut E,
    clock: &mut C,
    dice: &mut R,
    gate: &G,
) -> Option<u8>
where
    H::Mounted: Drop + Send,
    <H::Mounted as Disk>::Bench: Send,
    ensures { IfSome result (λ status. RanOverNew (map string_bytes words.now) (C.next clock.old) (sink_scene O.Sink out.old) (sink_scene E.Sink err.old) (source_scene I.Source input.old)
        (scene H.Host O.Sink host.new out.new (source_scene I.Source input.new)) (sink_scene E.Sink err.new) status) }
{
    if !make(alloc, words, host, clock, dice) {
        return None;
    }
    let known = true;
    Some(command(
        rt,
        alloc,
        Tool::Jobs,
        words,
        host,
        input,
        out,
        err,
        clock,
        dice,
        gate,
        known,
    ))
}

// Runs the script with these words of svnjobs over a new repository at `R`. `None`: it was not made.
fn run_over_new<T: Threads + Wait + Sync, G: Gate + Sync>(
    rt: &T,
    alloc: Global,
    line: &str,
    script: &str,
    host: &mut MemHost,
    gate: &G,
) -> Result<Option<Ran>, AllocError> {
    let mut words = Vec::new(alloc);
    for word in line.split(' ') {
        words.push(String::from_str(alloc, word)?)?;
    }
    let mut source = MemSource::new(alloc, Vec::from_slice(alloc, script.as_bytes())?);
    let mut out = MemSink::new(alloc);
    let mut err = MemSink::new(alloc);
    let mut clock = FixedClock::new(0);
    let mut dice = FixedDice { bytes: [0; 16] };
    let status = run_known(
        rt,
        alloc,
        &words,
        host,
        &mut source,
        &mut out,
        &mut err,
        &mut clock,
        &mut dice,
        gate,
    );
    Ok(status.map(|status| Ran { status, out, err }))
}

/// Runs the script with these words of svnjobs over a new repository at `R`, which is known to stand for a history. It is told what was
/// printed, and the status.
pub fn run_new<T: Threads + Wait + Sync, G: Gate + Sync>(
    rt: &T,
    alloc: Global,
    line: &str,
    script: &str,
    host: &mut MemHost,
    gate: &G,
    told: &mut Transcript,
) {
    match run_over_new(rt, alloc, line, script, host, gate) {
        Ok(Some(ran)) => put_run(&ran, told),
        Ok(None) => told.say("? no repository was made\n"),
        Err(_) => told.lose(),
    }
}
