// Runs of the programs over disks in memory.
use fsfs_base::Gate;
use fsfs_memory::{
    FixedClock, FixedDice, MemDisk, MemHost, MemSink, MemSource, NoGate, Transcript,
};
use fsfs_top::{Tool, command};
use std::alloc::{AllocError, Global};
use std::sync::Wait;
use std::thread::Threads;

// 2024-01-02T03:04:05.678901Z
const MOMENT: u64 = 1_704_164_645_678_901;

/// What a run wrote, and its status.
#[derive(Drop)]
pub struct Ran {
    pub status: u8,
    pub out: MemSink,
    pub err: MemSink,
}

impl Ran {
    /// Tells the output, and behind `!` the error output.
    pub fn put(&self, told: &mut Transcript) {
        told.lines(self.out.bytes(), "|", ":");
        told.lines(self.err.bytes(), "!", ";");
    }
}

fn words_of(alloc: Global, line: &str) -> Result<Vec<String>, AllocError> {
    let mut words = Vec::new(alloc);
    for word in line.split(' ').filter(|word| !word.is_empty()) {
        words.push(String::from_str(alloc, word)?)?;
    }
    Ok(words)
}

/// Runs a program with the words of a line and this input.
pub fn run<T: Threads + Wait + Sync, G: Gate + Sync>(
    rt: &T,
    alloc: Global,
    tool: Tool,
    line: &str,
    input: &str,
    host: &mut MemHost,
    gate: &G,
) -> Result<Ran, AllocError> {
    let words = words_of(alloc, line)?;
    let mut source = MemSource::new(alloc, Vec::from_slice(alloc, input.as_bytes())?);
    let mut out = MemSink::new(alloc);
    let mut err = MemSink::new(alloc);
    let mut clock = FixedClock::new(MOMENT);
    let mut dice = FixedDice { bytes: [0; 16] };
    let status = command(
        rt,
        alloc,
        tool,
        &words,
        host,
        &mut source,
        &mut out,
        &mut err,
        &mut clock,
        &mut dice,
        gate,
        false,
    );
    Ok(Ran { status, out, err })
}

/// Runs `svnlook` with the words of a line over the disk, which is `R`, tells the status and what it wrote, and gives the disk back.
pub fn look<T: Threads + Wait + Sync>(
    rt: &T,
    alloc: Global,
    disk: MemDisk,
    line: &str,
    told: &mut Transcript,
) -> MemDisk {
    let mut host = MemHost::new(alloc);
    if host.add_disk("R", disk).is_err() {
        told.lose();
        return MemDisk::new(alloc);
    }
    match run(rt, alloc, Tool::Look, line, "", &mut host, &NoGate) {
        Ok(ran) => {
            told.show(&ran.status);
            told.say("\n");
            ran.put(told);
        }
        Err(_) => told.lose(),
    }
    match host.take_disk("R") {
        Some(disk) => disk,
        None => {
            told.say("? the disk is still mounted");
            MemDisk::new(alloc)
        }
    }
}
