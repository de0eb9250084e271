//! Job scripts: reads a text of scripts, and prints the jobs of each, or where and why it is refused; or does the edits of its jobs over a
//! repository in memory, and prints what is told of each. Nothing is committed.
#![tactic(auto)]

mod jobs;
mod line;
mod play;
mod shown;

use anyhow::Result;
use std::io;

fn main(rt: HostRuntime) -> Result<()> {
    let text = io::read_to_string(rt.alloc(), rt.stdin())?;
    rt.print(play::transcript_of(rt.alloc(), text.as_str())?)?;
    Ok(())
}
