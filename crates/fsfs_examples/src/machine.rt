// A machine with one disk in memory, at the path `R`, on which two workers run.
use fsfs_base::Gate;
use fsfs_example_calls::{Ran, Tool};
use fsfs_memory::{MemDisk, MemHost, NoGate, Transcript};
use std::alloc::Global;
use std::sync::Wait;
use std::thread::Threads;

/// Runs a program with these words and this input, and tells what it printed and its status.
pub fn run<T: Threads + Wait + Sync, G: Gate + Sync>(
    rt: &T,
    alloc: Global,
    tool: Tool,
    words: &str,
    input: &str,
    host: &mut MemHost,
    gate: &G,
    told: &mut Transcript,
) {
    match fsfs_example_calls::run(rt, alloc, tool, words, input, host, gate) {
        Ok(ran) => put_run(&ran, told),
        Err(_) => told.lose(),
    }
}

/// Tells what a run printed and its status.
pub fn put_run(ran: &Ran, told: &mut Transcript) {
    ran.put(told);
    told.tell("= ", &ran.status);
    told.say("\n");
}

/// A machine with nothing at `R`.
pub fn empty_machine(alloc: Global, told: &mut Transcript) -> MemHost {
    let mut host = MemHost::new(alloc);
    if host.add_disk("R", MemDisk::new(alloc)).is_err() {
        told.lose();
    }
    host
}

/// A machine with a new repository, of two revisions in a shard, in which one worker has done the jobs of a script.
pub fn machine<T: Threads + Wait + Sync>(
    rt: &T,
    alloc: Global,
    script: &str,
    told: &mut Transcript,
) -> MemHost {
    let mut host = empty_machine(alloc, told);
    let create = "create R --shard 2";
    run(rt, alloc, Tool::Admin, create, "", &mut host, &NoGate, told);
    run(rt, alloc, Tool::Jobs, "R", script, &mut host, &NoGate, told);
    host
}
