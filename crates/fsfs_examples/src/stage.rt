// What the lines of an example work on.
use crate::command::{Given, Ran, run};
use crate::edit::edit;
use crate::files::{Files, copy_of, files_of};
use crate::line::{Line, Place};
use crate::transcript::{put_changes, put_file, put_files, put_run};
use anyhow::{Result, bail};
use fsfs_memory::{MemDisk, Transcript, bytes_of, numbers_of, picks_of};
use std::alloc::{AllocError, Global};
use std::collections::BTreeMap;
use std::mem;
use std::sync::Wait;
use std::thread::Threads;

/// So many changes of one command can be left by a stop.
const MOST_CHANGES: usize = 4096;

// An image is told by so many binary digits, one for each of changes beside one another.
const IMAGE_DIGITS: usize = 4;

/// So many images are there: one for each way in which four changes beside one another are left or not.
pub const IMAGES: u64 = 16;

/// What is known of the output of a block's first command where no call fails.
#[derive(Drop)]
pub enum Whole {
    NotAsked,
    Asked,
    Known(Vec<u8>),
}

/// The files, what the next command is given, and what has been printed.
#[derive(Drop)]
pub struct Stage {
    pub alloc: Global,
    kept: BTreeMap<String, Files>,
    pub files: Files,
    // The files before the last command.
    before: Files,
    // The name of the file that bytes go to.
    open: String,
    pub given: Given,
    // The disk as the last command left it.
    disk: Option<MemDisk>,
    /// How many calls of the disk the last command made in which a call was to fail.
    pub calls: u64,
    /// How often benches failed in it.
    pub bench_faults: u64,
    pub whole: Whole,
    pub out: Transcript,
}

impl Stage {
    pub fn new(alloc: Global) -> Stage {
        Stage {
            alloc,
            kept: BTreeMap::new(alloc),
            files: BTreeMap::new(alloc),
            before: BTreeMap::new(alloc),
            open: String::new(alloc),
            given: Given::new(alloc),
            disk: None,
            calls: 0,
            bench_faults: 0,
            whole: Whole::NotAsked,
            out: Transcript::new(alloc),
        }
    }

    /// Does what a line says. Where that can't be done, its number is printed, and why.
    pub fn play<T: Threads + Wait + Sync>(&mut self, rt: &T, number: usize, line: &str) {
        let done = match Line::read(line) {
            Ok(line) => self.act(rt, line),
            Err(error) => Err(error),
        };
        if let Err(error) = done {
            self.out.refuse(number, &error);
        }
    }

    fn act<T: Threads + Wait + Sync>(&mut self, rt: &T, line: Line<'_>) -> Result<()> {
        match line {
            Line::Example(name) => self.begin(name),
            Line::Like(name) => return self.take_over(name),
            Line::Keep(name) => return self.keep(name),
            Line::OfFile(line) => return edit(self.alloc, &mut self.files, &mut self.open, line),
            Line::Dice(text) => return self.throw(text),
            Line::Failing(place, calls) => return self.fail(place, calls),
            Line::Input(text) => return self.give(1, text, b"\n"),
            Line::InputCut(text) => return self.give(1, text, b""),
            Line::InputTimes(count, text) => return self.give(count, text, b""),
            Line::Run(line) => return self.run(rt, line),
            Line::Crash(picks) => return self.crash(picks),
            Line::CrashEach => bail!("no block, or a crash before this"),
            Line::Each(_) => bail!("a block in a block"),
            Line::End => bail!("no block ends here"),
            other => self.note(other),
        }
        Ok(())
    }

    // A line that can always be done.
    fn note(&mut self, line: Line<'_>) {
        match line {
            Line::Moment(moment) => self.given.moment = moment,
            Line::Files => put_files(&mut self.out, &self.files),
            Line::Show(name) => put_file(&mut self.out, &self.files, name),
            Line::Changes => put_changes(&mut self.out, &self.before, &self.files),
            Line::Count => {
                self.out.show(&self.files.len());
                self.out.say(" files\n");
            }
            _ => {}
        }
    }

    fn begin(&mut self, name: &str) {
        self.files = BTreeMap::new(self.alloc);
        self.before = BTreeMap::new(self.alloc);
        self.open = String::new(self.alloc);
        self.given = Given::new(self.alloc);
        self.disk = None;
        self.out.headline(name);
    }

    fn take_over(&mut self, name: &str) -> Result<()> {
        match self.kept.get(name) {
            Some(files) => self.files = copy_of(self.alloc, files)?,
            None => bail!("nothing is kept under this name"),
        }
        Ok(())
    }

    fn keep(&mut self, name: &str) -> Result<()> {
        let name = String::from_str(self.alloc, name)?;
        let files = copy_of(self.alloc, &self.files)?;
        self.kept.insert(name, files)?;
        Ok(())
    }

    fn throw(&mut self, text: &str) -> Result<()> {
        let bytes = bytes_of(self.alloc, text)?;
        if bytes.len() != 16 {
            bail!("dice show 16 bytes");
        }
        self.given.dice.copy_from_slice(&bytes);
        Ok(())
    }

    fn fail(&mut self, place: Place, calls: &str) -> Result<()> {
        self.given.calls = numbers_of(self.alloc, calls, ' ')?;
        self.given.place = place;
        self.out.say("failing ");
        self.out.say(place.word());
        self.out.say(" ");
        self.out.say(calls);
        self.out.say("\n");
        Ok(())
    }

    // Goes on with the input of the next command: these bytes so often, and this end.
    fn give(&mut self, count: u32, text: &str, end: &[u8]) -> Result<()> {
        let bytes = bytes_of(self.alloc, text)?;
        for _ in 0..count {
            self.given.input.extend_from_slice(&bytes)?;
        }
        Ok(self.given.input.extend_from_slice(end)?)
    }

    // Runs a command over the files.
    fn run<T: Threads + Wait + Sync>(&mut self, rt: &T, line: &str) -> Result<()> {
        self.out.say("$ ");
        self.out.say(line);
        self.out.say("\n");
        let ran = run(rt, self.alloc, line, &self.files, &self.given)?;
        if let Whole::Asked = &self.whole {
            self.whole = Whole::Known(Vec::from_slice(self.alloc, ran.out.bytes())?);
        }
        let is_first_part = is_first_part(&self.whole, &self.given, &ran);
        put_run(&mut self.out, &ran, is_first_part);
        Ok(self.leave(ran.disk)?)
    }

    // Goes on with what a command left.
    fn leave(&mut self, disk: MemDisk) -> Result<(), AllocError> {
        if !self.given.calls.is_empty() {
            self.calls = disk.calls();
            self.bench_faults = disk.bench_faults();
        }
        self.given.calls = Vec::new(self.alloc);
        self.given.input = Vec::new(self.alloc);
        let files = files_of(self.alloc, &disk)?;
        self.before = mem::replace(&mut self.files, files);
        self.disk = Some(disk);
        Ok(())
    }

    // Stops the machine after the last command: of its changes those are left that are picked.
    fn stop(&mut self, picked: &[bool]) -> Result<()> {
        let Some(disk) = self.disk.take() else {
            bail!("no command before this");
        };
        let left = disk.crash(picked)?;
        self.files = files_of(self.alloc, &left)?;
        Ok(())
    }

    fn crash(&mut self, picks: &str) -> Result<()> {
        // The disk was made by a change for each file and one that made them firm.
        let before = self.before.len().saturating_add(1);
        let picked = picks_of(self.alloc, picks, ' ', before, MOST_CHANGES)?;
        self.stop(&picked)?;
        self.out.say("crash ");
        self.out.say(picks);
        self.out.say("\n");
        Ok(())
    }

    // Stops the machine after the last command: of its changes those are left that this image has.
    fn stop_at(&mut self, image: u64) -> Result<()> {
        let picked = picks_in(self.alloc, image)?;
        self.stop(&picked)
    }

    /// Does that. Where it can't be done, the number of the line is printed, and why.
    pub fn crash_to(&mut self, number: usize, image: u64) {
        if let Err(error) = self.stop_at(image) {
            self.out.refuse(number, &error);
        }
    }

    /// All files, as they are printed.
    pub fn files_as_text(&self) -> Result<String, AllocError> {
        let mut text = Transcript::new(self.alloc);
        put_files(&mut text, &self.files);
        text.finish()
    }

    /// The length of the file that bytes go to.
    pub fn length(&self) -> usize {
        match self.files.get(self.open.as_str()) {
            Some(bytes) => bytes.len(),
            None => 0,
        }
    }

    /// Leaves the first bytes of the file that bytes go to, so many.
    pub fn cut(&mut self, length: usize) {
        if let Some(bytes) = self.files.get_mut(self.open.as_str()) {
            bytes.truncate(length);
        }
    }
}

// The changes that an image has: of each four beside one another those whose digits are 1.
fn picks_in(alloc: Global, image: u64) -> Result<Vec<bool>, AllocError> {
    let mut picks = Vec::new(alloc);
    let mut digits = image;
    for at in 0..MOST_CHANGES {
        if at % IMAGE_DIGITS == 0 {
            digits = image;
        }
        picks.push(digits % 2 == 1)?;
        digits /= 2;
    }
    Ok(picks)
}

// Whether the output of a run in which a call failed is a first part of the whole, and that is all that can be known of it.
// Where the output itself failed before anything was written, it is known that nothing was.
fn is_first_part(whole: &Whole, given: &Given, ran: &Ran) -> bool {
    if given.calls.is_empty() || ran.status == 0 {
        return false;
    }
    if given.place == Place::Output && ran.out.bytes().is_empty() {
        return false;
    }
    match whole {
        Whole::Known(whole) => {
            !whole.is_empty() && whole.as_slice().starts_with(ran.out.bytes())
        }
        _ => false,
    }
}
