// One run of a program.
use crate::files::{Files, firm_disk};
use crate::line::Place;
use anyhow::{Result, anyhow, bail};
use fsfs_example_calls::{Tool, command};
use fsfs_memory::{
    FixedClock, FixedDice, MemDisk, MemHost, MemSink, MemSource, NoGate, bytes_of, cut,
};
use std::alloc::{AllocError, Global};
use std::sync::Wait;
use std::thread::Threads;

/// The last moment that a clock can show: the end of the year 2099.
const LAST_MOMENT: u64 = 4_102_444_799_999_999;

/// What a program is run with, beside its words and the files.
#[derive(Drop)]
pub struct Given {
    /// In microseconds since the beginning of 1970.
    pub moment: u64,
    pub dice: [u8; 16],
    /// The calls that fail, all at one place; the first call is 1.
    pub place: Place,
    pub calls: Vec<u64>,
    /// The input of the next command.
    pub input: Vec<u8>,
}

impl Given {
    /// 2024-01-02T03:04:05.678901Z, dice that show zeros, no call that fails, and no input.
    pub fn new(alloc: Global) -> Given {
        Given {
            moment: 1_704_164_645_678_901,
            dice: [0; 16],
            place: Place::Disk,
            calls: Vec::new(alloc),
            input: Vec::new(alloc),
        }
    }

    // The calls that fail at this place.
    fn calls_at(&self, place: Place) -> &[u64] {
        if self.place == place {
            self.calls.as_slice()
        } else {
            &[]
        }
    }

    // A disk with these files.
    fn disk(&self, alloc: Global, files: &Files) -> Result<MemDisk> {
        let calls = Vec::from_slice(alloc, self.calls_at(Place::Disk))?;
        let bench_calls = Vec::from_slice(alloc, self.calls_at(Place::Bench))?;
        let disk = firm_disk(alloc, files)?.failing(calls, bench_calls);
        match self.calls_at(Place::Stop).first() {
            Some(call) => Ok(disk.fuse(call.saturating_sub(1))),
            None => Ok(disk),
        }
    }

    fn source(&self, alloc: Global) -> Result<MemSource, AllocError> {
        let calls = Vec::from_slice(alloc, self.calls_at(Place::Input))?;
        let bytes = Vec::from_slice(alloc, &self.input)?;
        Ok(MemSource::with_faults(bytes, calls))
    }

    fn sink(&self, alloc: Global, place: Place) -> Result<MemSink, AllocError> {
        let calls = Vec::from_slice(alloc, self.calls_at(place))?;
        Ok(MemSink::with_faults(alloc, calls))
    }
}

/// What a run left.
#[derive(Drop)]
pub struct Ran {
    pub status: u8,
    pub out: MemSink,
    pub err: MemSink,
    pub disk: MemDisk,
}

fn tool_of(word: &str) -> Result<Tool> {
    match word {
        "svnadmin" => Ok(Tool::Admin),
        "svnlook" => Ok(Tool::Look),
        "svnjobs" => Ok(Tool::Jobs),
        _ => bail!("no such program"),
    }
}

// A word of a command. Two quotation marks are the empty word.
fn word_of(alloc: Global, text: &str) -> Result<String> {
    if text == "\"\"" {
        return Ok(String::new(alloc));
    }
    let Ok(word) = String::from_utf8(bytes_of(alloc, text)?) else {
        bail!("a word that is not in UTF-8");
    };
    Ok(word)
}

/// Runs the program that the first word names with the others, over a disk with these files at `R`.
pub fn run<T: Threads + Wait + Sync>(
    rt: &T,
    alloc: Global,
    line: &str,
    files: &Files,
    given: &Given,
) -> Result<Ran> {
    let (tool, rest) = cut(line);
    let tool = tool_of(tool)?;
    let mut words = Vec::new(alloc);
    for word in rest.split(' ').filter(|word| !word.is_empty()) {
        words.push(word_of(alloc, word)?)?;
    }
    if given.moment > LAST_MOMENT {
        bail!("too late a moment");
    }
    let mut host = MemHost::new(alloc);
    host.add_disk("R", given.disk(alloc, files)?)?;
    let mut input = given.source(alloc)?;
    let mut out = given.sink(alloc, Place::Output)?;
    let mut err = given.sink(alloc, Place::Errors)?;
    let mut clock = FixedClock::new(given.moment);
    let mut dice = FixedDice { bytes: given.dice };
    let status = command(
        rt, alloc, tool, &words, &mut host, &mut input, &mut out, &mut err, &mut clock, &mut dice,
        &NoGate, false,
    );
    let Some(disk) = host.take_disk("R") else {
        return Err(anyhow!("the disk is still mounted"));
    };
    Ok(Ran {
        status,
        out,
        err,
        disk,
    })
}
