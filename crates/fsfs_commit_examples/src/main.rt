//! Transactions that begin, are purged, removed and committed, and creations: reads a text of examples, makes their calls over a disk in
//! memory, and prints what is answered and what is left, where calls fail too, and behind crashes. `docs/EXAMPLES.md` has the form of the
//! lines.
#![tactic(auto)]

mod answers;
mod calls;
mod failing;
mod jobs;
mod lines;
mod packs;
mod play;
mod racing;
mod rivals;
mod table;
mod tally;
mod turns;
mod untold;

use anyhow::Result;
use fsfs_memory::Transcript;
use std::io;

fn main(rt: HostRuntime) -> Result<()> {
    let alloc = rt.alloc();
    let text = io::read_to_string(alloc, rt.stdin())?;
    let mut out = Transcript::new(alloc);
    play::play(&rt, alloc, text.as_str(), &mut out)?;
    rt.print(out.finish()?)?;
    Ok(())
}
