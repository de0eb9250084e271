//! Runs of the pure machine: reads a text of runs, and prints what each step answers and which history stands then.
//! `docs/EXAMPLES.md` has the form of the text.
#![tactic(auto)]

mod answer;
mod line;
mod play;
mod player;
mod step;
mod words;

use anyhow::Result;
use std::io;

fn main(rt: HostRuntime) -> Result<()> {
    let text = io::read_to_string(rt.alloc(), rt.stdin())?;
    rt.print(play::transcript_of(rt.alloc(), text.as_str())?)?;
    Ok(())
}
