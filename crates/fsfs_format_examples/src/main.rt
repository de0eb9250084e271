//! The formats: reads a text of bytes and of what they are to be read as, and prints the values, or where they are refused.
//! `docs/EXAMPLES.md` has the form of the text.
#![tactic(auto)]

mod changed_paths;
mod formats;
mod line;
mod nodes;
mod play;
mod representations;
mod small_files;
mod texts;
mod trailers;
mod walks;

use anyhow::Result;
use std::io;

fn main(rt: HostRuntime) -> Result<()> {
    let text = io::read_to_string(rt.alloc(), rt.stdin())?;
    rt.print(play::transcript_of(rt.alloc(), text.as_str())?)?;
    Ok(())
}
