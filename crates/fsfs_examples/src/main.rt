//! Worked examples of the store: reads a text of examples, and prints what each command answers and leaves. Behind a line
//! `=== two workers` stand examples of scripts that two workers run many times: what is told each time must be one of the answers that are
//! allowed. `docs/EXAMPLES.md` has the form of the text.
#![tactic(auto)]

mod block;
mod command;
mod edit;
mod example;
mod files;
mod known;
mod line;
mod machine;
mod overtaking;
mod play;
mod stage;
mod transcript;
mod ways;
mod workers;

use anyhow::Result;
use fsfs_memory::Transcript;
use std::io;

fn main(rt: HostRuntime) -> Result<()> {
    let alloc = rt.alloc();
    let text = io::read_to_string(alloc, rt.stdin())?;
    let (commands, workers) = text
        .as_str()
        .split_once("=== two workers\n")
        .unwrap_or((text.as_str(), ""));
    rt.print(play::transcript_of(&rt, alloc, commands)?)?;
    let mut out = Transcript::new(alloc);
    workers::play(&rt, alloc, workers, &mut out);
    rt.print(out.finish()?)?;
    Ok(())
}
