//! Transactions that are edited, merged and written as revisions: reads a text of examples, makes their calls over a repository in
//! memory, and prints what is answered and what bytes come of them. With the word `REPOS` it makes the calls of the lines that it reads
//! in the folder of a repository, and leaves there what they made; with the words `REPOS LINE ..`, each line `begin REV`, it begins these
//! transactions there. `docs/EXAMPLES.md` has the form of the lines.
#![tactic(auto)]

mod answers;
mod book;
mod calls;
mod cast;
mod committing;
mod edits;
mod faults;
mod files;
mod folder;
mod landing;
mod play;
mod reading;
mod stage;
mod texts;
mod words;

use anyhow::Result;
use fsfs_memory::Transcript;
use std::env::args;
use std::io;

fn main(rt: HostRuntime) -> Result<()> {
    let alloc = rt.alloc();
    let words: Vec<String> = args(&rt)?.skip(1).collect(alloc)?;
    let words: Vec<&str> = words.iter().map(|word| word.as_str()).collect(alloc)?;
    let mut out = Transcript::new(alloc);
    match words.as_slice() {
        [] => {
            let text = io::read_to_string(alloc, rt.stdin())?;
            play::play(&rt, alloc, text.as_str(), &mut out)?;
        }
        [repos] => {
            let text = io::read_to_string(alloc, rt.stdin())?;
            folder::play(&rt, repos, text.as_str(), &mut out)?;
        }
        [repos, lines @ ..] => folder::begin(&rt, repos, lines, &mut out)?,
    }
    rt.print(out.finish()?)?;
    Ok(())
}
