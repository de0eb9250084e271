// A whole text about scripts.
use crate::jobs::run;
use crate::line::Line;
use crate::shown::{put_error, put_job};
use anyhow::Result;
use fsfs_memory::{MemDisk, MemSource, Transcript, bytes_of, put_file};
use fsfs_script::Script;
use std::alloc::{AllocError, Global};
use std::mem;

// More jobs than this are counted, and not printed.
const SHOWN: usize = 3;

// A disk, the script so far, and what has been printed.
#[derive(Drop)]
struct Player {
    alloc: Global,
    disk: MemDisk,
    script: Vec<u8>,
    out: Transcript,
}

// The jobs of a script, up to its end or the first refusal.
fn put_jobs(out: &mut Transcript, alloc: Global, script: &mut Script<MemSource>) {
    let mut count: usize = 0;
    for _ in 0..u64::MAX {
        match script.read_job(alloc) {
            Ok(Some(job)) => {
                if count < SHOWN {
                    put_job(out, &job);
                }
                count = count.saturating_add(1);
            }
            Ok(None) => {
                out.tell("end behind ", &count);
                return out.say("\n");
            }
            Err(error) => return put_error(out, error),
        }
    }
}

impl Player {
    fn put_file(&mut self, rest: &str) {
        if !put_file(self.alloc, &mut self.disk, rest, &mut self.out) {
            self.out.say("\n");
        }
    }

    fn add(&mut self, text: &str, end: &[u8]) -> Result<()> {
        let bytes = bytes_of(self.alloc, text)?;
        self.script.extend_from_slice(&bytes)?;
        self.script.extend_from_slice(end)?;
        Ok(())
    }

    fn add_many(&mut self, count: usize, text: &str) -> Result<()> {
        for _ in 0..count {
            self.add(text, b"")?;
        }
        Ok(())
    }

    // The script so far; another begins.
    fn take(&mut self) -> Vec<u8> {
        mem::replace(&mut self.script, Vec::new(self.alloc))
    }

    fn read(&mut self, failing: Vec<u64>) -> Result<()> {
        let source = MemSource::with_faults(self.take(), failing);
        let mut script = Script::new(self.alloc, source)?;
        put_jobs(&mut self.out, self.alloc, &mut script);
        Ok(())
    }

    fn read_failing(&mut self, call: u64) -> Result<()> {
        let mut failing = Vec::new(self.alloc);
        failing.push(call)?;
        self.read(failing)
    }

    fn run(&mut self) {
        let disk = mem::replace(&mut self.disk, MemDisk::new(self.alloc));
        let script = self.take();
        self.disk = run(self.alloc, disk, script, &mut self.out);
    }

    fn act(&mut self, line: Line<'_>) -> Result<()> {
        match line {
            Line::Nothing => {}
            Line::Headline(text) => self.out.headline(text),
            Line::File(rest) => self.put_file(rest),
            Line::Whole(text) => return self.add(text, b"\n"),
            Line::Cut(text) => return self.add(text, b""),
            Line::Many(count, text) => return self.add_many(count, text),
            Line::Read => return self.read(Vec::new(self.alloc)),
            Line::Fails(call) => return self.read_failing(call),
            Line::Run => self.run(),
        }
        Ok(())
    }

    // Does what a line says. Where that can't be done, its number is printed, and why.
    fn play(&mut self, number: usize, line: &str) {
        let done = match Line::read(line) {
            Ok(line) => self.act(line),
            Err(error) => Err(error),
        };
        if let Err(error) = done {
            self.out.refuse(number, &error);
        }
    }
}

/// What is printed of a text about scripts.
pub fn transcript_of(alloc: Global, text: &str) -> Result<String, AllocError> {
    let mut player = Player {
        alloc,
        disk: MemDisk::new(alloc),
        script: Vec::new(alloc),
        out: Transcript::new(alloc),
    };
    for (at, line) in text.lines().enumerate() {
        player.play(at.saturating_add(1), line);
    }
    player.out.finish()
}
