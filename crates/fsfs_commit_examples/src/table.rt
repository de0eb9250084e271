// A table of one call: what is answered and left where calls fail, and what a crash leaves then.
use crate::failing::{Way, crashed, failing, sound};
use crate::lines::{call, play_lines};
use crate::tally::Tally;
use fsfs_memory::{Example, MemDisk, Transcript};
use std::alloc::Global;
use std::sync::Wait;
use std::thread::Threads;

// No example has so many calls.
const MOST_CALLS: u64 = 128;

// What is asked of what is left behind the call.
#[derive(Clone, Copy)]
enum Asked {
    // Which transactions there are, and the name of the next.
    Next,
    // Which transactions the repository has, and what the line answers when it is done once more.
    Again,
}

impl Asked {
    fn behind(line: &str) -> Asked {
        if line.starts_with("jobs ") {
            Asked::Again
        } else {
            Asked::Next
        }
    }

    // In so many ways a crash leaves changes or not: of changes beside one another six, or four, are left or not in each way.
    fn patterns(self) -> u64 {
        match self {
            Asked::Next => 64,
            Asked::Again => 16,
        }
    }

    // Which changes are left: the bits of the pattern, again and again.
    fn picked(self, pattern: u64) -> u64 {
        match self {
            Asked::Next => pattern.wrapping_mul(0x1041_0410_4104_1041),
            Asked::Again => pattern.wrapping_mul(0x1111_1111_1111_1111),
        }
    }
}

// The call of a table, and the lines before it.
#[derive(Clone, Copy)]
struct Table<'a> {
    alloc: Global,
    before: Example<'a>,
    line: &'a str,
    asked: Asked,
}

// The disk behind the call, where one call of the disk or the bench fails.
fn failed<T: Threads + Wait + Sync>(
    rt: &T,
    table: Table<'_>,
    way: Way,
    number: u64,
    out: &mut Transcript,
) -> MemDisk {
    let mut unseen = Transcript::new(table.alloc);
    let disk = play_lines(rt, table.alloc, table.before, &mut unseen);
    let disk = failing(table.alloc, disk, way, number, out);
    call(rt, table.alloc, disk, table.line, out)
}

// Tells which transactions there are, and what is asked then. The answer to that.
fn put_left<T: Threads + Wait + Sync>(
    rt: &T,
    table: Table<'_>,
    disk: MemDisk,
    out: &mut Transcript,
) -> Transcript {
    let (list, line) = match table.asked {
        Asked::Next => ("list", "begin 0"),
        Asked::Again => ("list-open", table.line),
    };
    let mut answer = Transcript::new(table.alloc);
    out.say(" [");
    let disk = call(rt, table.alloc, sound(table.alloc, disk), list, out);
    out.say(", ");
    let _ = call(rt, table.alloc, disk, line, &mut answer);
    out.say(answer.as_str());
    out.say("]");
    answer
}

// All that a crash may leave behind a call that fails.
fn put_crashes<T: Threads + Wait + Sync>(
    rt: &T,
    table: Table<'_>,
    way: Way,
    number: u64,
    tally: &mut Tally,
    out: &mut Transcript,
) {
    let mut told = Transcript::new(table.alloc);
    for pattern in 0..table.asked.patterns() {
        let mut first = Transcript::new(table.alloc);
        let disk = failed(rt, table, way, number, &mut first);
        let mut left = Transcript::new(table.alloc);
        let disk = crashed(table.alloc, disk, table.asked.picked(pattern), out);
        let again = put_left(rt, table, disk, &mut left);
        tally.count(first.as_str(), again.as_str());
        if !told.as_str().contains(left.as_str()) {
            told.say(left.as_str());
        }
    }
    out.say(told.as_str());
}

// A row of the table. Whether a call failed.
fn put_row<T: Threads + Wait + Sync>(
    rt: &T,
    table: Table<'_>,
    way: Way,
    number: u64,
    tally: &mut Tally,
    out: &mut Transcript,
) -> bool {
    out.say(way.word());
    out.say(": ");
    let disk = failed(rt, table, way, number, out);
    let has_failed = disk.faults() > 0 || disk.bench_faults() > 0;
    let _ = put_left(rt, table, disk, out);
    out.say(", crash");
    put_crashes(rt, table, way, number, tally, out);
    out.say("\n");
    has_failed
}

// The rows of one way, up to the first where no call failed. One that is as that before is left out.
fn put_rows<T: Threads + Wait + Sync>(
    rt: &T,
    table: Table<'_>,
    way: Way,
    tally: &mut Tally,
    out: &mut Transcript,
) {
    let mut last = Transcript::new(table.alloc);
    for number in 1..=MOST_CALLS {
        let mut row = Transcript::new(table.alloc);
        let has_failed = put_row(rt, table, way, number, tally, &mut row);
        if row.as_str() != last.as_str() {
            out.say(row.as_str());
        }
        last = row;
        if !has_failed {
            break;
        }
    }
}

/// The table of a call behind these lines; and of jobs, what it counted.
pub fn put_table<T: Threads + Wait + Sync>(
    rt: &T,
    alloc: Global,
    before: Example<'_>,
    line: &str,
    out: &mut Transcript,
) {
    let table = Table {
        alloc,
        before,
        line,
        asked: Asked::behind(line),
    };
    let mut tally = Tally::new();
    for way in [Way::Disk, Way::Bench, Way::Stop] {
        put_rows(rt, table, way, &mut tally, out);
    }
    match table.asked {
        Asked::Next => put_rows(rt, table, Way::BenchAndStop, &mut tally, out),
        Asked::Again => tally.put(out),
    }
}
