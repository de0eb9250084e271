// Calls of a bench, and what they answer.
use crate::calls::{say_bytes, say_done, say_length, say_there};
use crate::line::BenchCall;
use anyhow::Result;
use fsfs_disk::Bench;
use fsfs_memory::{Transcript, bytes_of};
use std::alloc::Global;

/// Makes the call, and writes what it answers.
pub fn call_bench<B: Bench>(
    alloc: Global,
    bench: &mut B,
    call: &BenchCall<'_>,
    out: &mut Transcript,
) -> Result<()> {
    match call {
        BenchCall::Append(file, text) => {
            let bytes = bytes_of(alloc, text)?;
            say_done(out, bench.append(file, &bytes));
        }
        BenchCall::Write(file, text) => {
            let bytes = bytes_of(alloc, text)?;
            say_done(out, bench.write(file, &bytes));
        }
        BenchCall::Read(part) => {
            let mut buffer = vec![in alloc; b'.'; part.length.min(64) as usize]?;
            let found = bench.read(&part.name, part.offset, &mut buffer);
            say_bytes(out, found, &buffer);
        }
        BenchCall::Length(file) => say_length(out, bench.len(file)),
        BenchCall::Firm(file) => say_done(out, bench.firm(file)),
        BenchCall::Remove(file) => say_there(out, bench.remove(file)),
    }
    Ok(())
}
