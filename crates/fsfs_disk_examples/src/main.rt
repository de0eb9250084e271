//! The disks: reads a text of examples, makes their calls over a disk in memory, over bare calls in memory and in real folders,
//! and prints what is answered, and what a crash leaves. `docs/EXAMPLES.md` has the form of the text.
#![tactic(auto)]

mod bench_calls;
mod calls;
mod edge;
mod failing;
mod folders;
mod left;
mod line;
mod memory;
mod play;
mod words;

use anyhow::Result;
use std::io;

fn main(rt: HostRuntime) -> Result<()> {
    let text = io::read_to_string(rt.alloc(), rt.stdin())?;
    let told = play::transcript_of(&rt, text.as_str())?;
    rt.print(told)?;
    Ok(())
}
