// A machine that runs, and what is printed of it.
use crate::answer::{put_answer, put_history, put_node, put_stuck, put_walk};
use crate::line::Line;
use crate::step::step_of;
use crate::words::Words;
use anyhow::{Result, bail};
use fsfs_base::{FsPath, Pairs, RevNum};
use fsfs_core::{Bytes, Outcome, State, Step};
use fsfs_memory::Transcript;
use std::alloc::{AllocError, Global};
use std::collections::VecDeque;
use std::num::NonZeroU64;

/// Steps that have a name.
#[derive(Clone, Copy)]
pub struct Named<'a> {
    pub name: &'a str,
    pub steps: &'a [&'a str],
}

/// The steps of a name: those that had it last.
pub fn steps_of<'a>(named: &[Named<'a>], name: &str) -> Result<&'a [&'a str]> {
    let mut found = None;
    for steps in named {
        if steps.name == name {
            found = Some(steps.steps);
        }
    }
    match found {
        Some(steps) => Ok(steps),
        None => bail!("no steps of this name"),
    }
}

// A revision and a path in it.
fn place_of(alloc: Global, text: &str) -> Result<(RevNum, FsPath)> {
    let mut words = Words::new(text);
    let rev = words.revision(0);
    let path = words.path(alloc);
    words.end()?;
    Ok((rev, path))
}

// A new repository with two revisions in a shard, whose revision 0 has a file of the bytes `zero`.
fn new_state(alloc: Global) -> Result<State, AllocError> {
    let bytes = Bytes::new(Vec::from_slice(alloc, b"zero")?);
    let size = NonZeroU64::new(2).unwrap_or(NonZeroU64::MIN);
    State::create(alloc, size, Pairs::new(alloc), bytes)
}

// The steps that these lines write.
fn steps_in(alloc: Global, lines: &[&str], youngest: u64) -> Result<VecDeque<Step>> {
    let mut steps = VecDeque::new(alloc);
    for line in lines {
        steps.push_back(step_of(alloc, line, youngest)?)?;
    }
    Ok(steps)
}

fn are_done(outcomes: &[Outcome]) -> bool {
    for outcome in outcomes {
        if !matches!(outcome, Outcome::Done) {
            return false;
        }
    }
    true
}

/// A machine, and what has been printed of it.
#[derive(Drop)]
pub struct Player {
    alloc: Global,
    state: State,
    pub out: Transcript,
}

impl Player {
    /// A new repository.
    pub fn new(alloc: Global) -> Result<Player, AllocError> {
        Ok(Player {
            alloc,
            state: new_state(alloc)?,
            out: Transcript::new(alloc),
        })
    }

    /// Begins a run of this name, with a new repository.
    pub fn begin(&mut self, name: &str) -> Result<(), AllocError> {
        self.state = new_state(self.alloc)?;
        self.out.headline(name);
        Ok(())
    }

    // One step, and what it answers.
    fn step(&mut self, line: &str) -> Result<Outcome> {
        let step = step_of(self.alloc, line, self.state.young())?;
        Ok(self.state.step(step)?)
    }

    /// Steps in one run, each of which is to be done.
    pub fn run(&mut self, lines: &[&str]) -> Result<()> {
        let steps = steps_in(self.alloc, lines, self.state.young())?;
        let outcomes = self.state.run(steps)?;
        if !are_done(&outcomes) {
            bail!("a step that is not done");
        }
        Ok(())
    }

    /// A step that is to fail.
    pub fn fail(&mut self, line: &str) -> Result<()> {
        match self.step(line)? {
            Outcome::Failed => Ok(()),
            _ => bail!("a step that does not fail"),
        }
    }

    // Does all steps of a name.
    fn act_all(&mut self, named: &[Named<'_>], name: &str) -> Result<()> {
        self.run(steps_of(named, name)?)?;
        self.out.say("do ");
        self.out.say(name);
        self.out.say(": done\n");
        Ok(())
    }

    // One step, printed with what it answers.
    fn answer(&mut self, line: &str) -> Result<()> {
        let outcome = self.step(line)?;
        self.out.say(line);
        self.out.say(": ");
        put_answer(&mut self.out, &outcome);
        self.out.say("\n");
        Ok(())
    }

    // What the history says of a path.
    fn look(&mut self, line: Line<'_>, place: &str) -> Result<()> {
        let (rev, path) = place_of(self.alloc, place)?;
        match line {
            Line::Walk(_) => {
                put_walk(&mut self.out, self.alloc, self.state.history(), rev, &path);
            }
            _ => put_node(&mut self.out, self.state.history(), rev, &path),
        }
        Ok(())
    }

    fn act(&mut self, named: &[Named<'_>], line: Line<'_>) -> Result<()> {
        match line {
            Line::Nothing => Ok(()),
            Line::Run(_) | Line::Begin(_) | Line::End => bail!("no place for this line"),
            Line::Do(name) => self.act_all(named, name),
            Line::Node(place) | Line::Walk(place) => self.look(line, place),
            Line::Step(step) => self.answer(step),
            Line::History => {
                put_history(&mut self.out, self.alloc, &self.state);
                Ok(())
            }
            Line::Stuck => {
                put_stuck(&mut self.out, &self.state);
                Ok(())
            }
        }
    }

    /// Plays a line. Where that can't be done, it is printed, and why.
    pub fn play(&mut self, named: &[Named<'_>], line: &str) {
        let done = self.act(named, Line::read(line));
        self.told(line, done);
    }

    /// Prints why a line can't be played, if it can't.
    pub fn told(&mut self, line: &str, done: Result<()>) {
        if let Err(error) = done {
            self.out.say("? ");
            self.out.say(line);
            self.out.tell(": ", &error);
            self.out.say("\n");
        }
    }
}
