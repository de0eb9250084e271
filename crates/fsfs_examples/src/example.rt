// One example: a script that workers run, and what is looked at behind each run.
use crate::known::run_new;
use crate::machine::{empty_machine, machine, run};
use crate::overtaking::Overtaking;
use crate::ways::{Course, Way};
use fsfs_base::Gate;
use fsfs_example_calls::Tool;
use fsfs_memory::{MemHost, NoGate, Transcript};
use std::alloc::Global;
use std::sync::Wait;
use std::thread::Threads;

/// An example, as it is written.
#[derive(Clone, Copy)]
pub struct Example<'a> {
    /// The script that one worker runs first. Where it is empty the other is run over a repository that is made for it.
    pub before: &'a str,
    /// The words of `svnjobs` that runs the other script.
    pub words: &'a str,
    pub script: &'a str,
    /// Words of `svnlook`, a line for each look.
    pub looks: &'a str,
}

// What is told of one run.
#[derive(Drop)]
struct Told {
    // What svnjobs printed, and its status.
    answer: Transcript,
    // What svnlook printed behind it.
    looks: Transcript,
    // A job that was to be held went on by itself.
    gave_up: bool,
}

// Workers run the script.
fn run_workers<T: Threads + Wait + Sync, G: Gate + Sync>(
    rt: &T,
    alloc: Global,
    example: Example<'_>,
    host: &mut MemHost,
    gate: &G,
    told: &mut Transcript,
) {
    let Example {
        before,
        words,
        script,
        ..
    } = example;
    if before.is_empty() {
        run_new(rt, alloc, words, script, host, gate, told);
    } else {
        run(rt, alloc, Tool::Jobs, words, script, host, gate, told);
    }
}

// Workers run the script, and it is told how often a job that is overtaken asked for the lock. Whether one that was to be held went on
// by itself.
fn run_script<T: Threads + Wait + Sync>(
    rt: &T,
    alloc: Global,
    example: Example<'_>,
    course: &Course,
    host: &mut MemHost,
    told: &mut Transcript,
) -> bool {
    match course {
        Course::Free => {
            run_workers(rt, alloc, example, host, &NoGate, told);
            false
        }
        Course::Held(hold) => {
            let gate = hold.gate();
            run_workers(rt, alloc, example, host, &gate, told);
            gate.gave_up()
        }
        Course::Overtaken { who, others } => {
            let Ok(gate) = Overtaking::new(alloc, *who, others) else {
                told.lose();
                return false;
            };
            run_workers(rt, alloc, example, host, &gate, told);
            told.tell("asked ", &gate.asked());
            told.say(" times\n");
            gate.gave_up()
        }
    }
}

fn look<T: Threads + Wait + Sync>(
    rt: &T,
    alloc: Global,
    looks: &str,
    host: &mut MemHost,
    told: &mut Transcript,
) {
    for line in looks.lines() {
        told.say("$ svnlook ");
        told.say(line);
        told.say("\n");
        run(rt, alloc, Tool::Look, line, "", host, &NoGate, told);
    }
}

fn run_once<T: Threads + Wait + Sync>(
    rt: &T,
    alloc: Global,
    example: Example<'_>,
    course: &Course,
) -> Told {
    let mut unsaid = Transcript::new(alloc);
    let mut answer = Transcript::new(alloc);
    let mut looks = Transcript::new(alloc);
    let mut host = if example.before.is_empty() {
        empty_machine(alloc, &mut unsaid)
    } else {
        machine(rt, alloc, example.before, &mut unsaid)
    };
    let gave_up = run_script(rt, alloc, example, course, &mut host, &mut answer);
    look(rt, alloc, example.looks, &mut host, &mut looks);
    Told {
        answer,
        looks,
        gave_up,
    }
}

// Whether it is one of the answers, between which stand lines `or`.
fn is_allowed(answer: &str, allowed: &str) -> bool {
    allowed
        .split("\nor\n")
        .any(|one| one.trim_end() == answer.trim_end())
}

// Judges one run. The looks of the first are kept, and those of each other must be the same.
fn judge(told: Told, allowed: &str, seen: &mut Transcript, out: &mut Transcript) -> bool {
    if seen.as_str().is_empty() {
        seen.say(told.looks.as_str());
    }
    if told.gave_up {
        out.say("? a job that was held went on by itself\n");
    } else if !is_allowed(told.answer.as_str(), allowed) {
        out.say("? another answer\n");
        out.say(told.answer.as_str());
    } else if told.looks.as_str() != seen.as_str() {
        out.say("? it looks otherwise\n");
        out.say(told.looks.as_str());
    } else {
        return true;
    }
    false
}

/// Runs the script of an example in a way, each time over a new repository, up to the first run that is not as it is allowed.
pub fn play_way<T: Threads + Wait + Sync>(
    rt: &T,
    alloc: Global,
    example: Example<'_>,
    way: &Way,
    allowed: &str,
    seen: &mut Transcript,
    out: &mut Transcript,
) {
    for _ in 0..way.times {
        let told = run_once(rt, alloc, example, &way.course);
        if !judge(told, allowed, seen, out) {
            return;
        }
    }
    out.say("as allowed\n");
}
