// What a program tells of its progress.

use fsfs_base::{Gate, GatePlace};
use std::io::Write;
use std::sync::Mutex;
use std::sync::atomic::AtomicU64;
use std::sync::atomic::Ordering::SeqCst;
use std::time::{Clock, Duration, Instant};

/// What a gate tells of.
#[derive(Clone, Copy, PartialEq, Eq)]
pub enum Progress {
    /// How many jobs are done, at most once a second.
    Jobs,
    /// Each revision that was dumped.
    Revisions,
}

// The stream of a gate, and when it told the last line.
#[derive(Drop)]
struct Told<W: Write + Drop> {
    stream: W,
    // The moment of the last line, or of the making; none where the clock didn't give it.
    last: Option<Instant>,
}

impl<W: Write + Drop> Told<W> {
    // Whether it has said nothing long enough; from then on it has just spoken.
    fn is_due<C: Clock>(&mut self, clock: &C) -> bool {
        let (Some(last), Ok(now)) = (self.last, Instant::now(clock)) else {
            return false;
        };
        if now.duration_since(last) < Duration::from_secs(1) {
            return false;
        }
        self.last = Some(now);
        true
    }
}

/// A gate that holds nobody, and tells on a stream how far a run has come: how many jobs are done, at most once a second, or each
/// revision that was dumped. That a line isn't written is passed over. Of workers that end jobs at the same time one tells it; the others
/// don't wait for that.
#[derive(Drop)]
pub struct ProgressGate<C: Clock + Drop, W: Write + Drop> {
    clock: C,
    progress: Progress,
    done: AtomicU64,
    // None where nothing is told.
    told: Option<Mutex<Told<W>>>,
}

impl<C: Clock + Drop, W: Write + Drop> ProgressGate<C, W> {
    /// A gate that tells this on a stream, or nothing. How many jobs are done comes a second behind this call at the earliest.
    pub fn new(clock: C, progress: Progress, stream: Option<W>) -> ProgressGate<C, W> {
        let last = Instant::now(&clock).ok();
        let told = match stream {
            Some(stream) => Some(Mutex::new(Told { stream, last })),
            None => None,
        };
        ProgressGate {
            clock,
            progress,
            done: AtomicU64::new(0),
            told,
        }
    }
}

impl<C: Clock + Drop, W: Write + Drop> Gate for ProgressGate<C, W> {
    fn at(&self, place: GatePlace, who: u64) {
        let Some(told) = &self.told else {
            return;
        };
        if place != GatePlace::AfterJob {
            return;
        }
        let done = self.done.fetch_add(1, SeqCst).saturating_add(1);
        let Some(mut told) = told.try_lock() else {
            return;
        };
        match self.progress {
            Progress::Revisions => {
                let _ = writeln!(told.stream, "* Dumped revision {who}.");
            }
            Progress::Jobs => {
                if told.is_due(&self.clock) {
                    let _ = writeln!(told.stream, "{done} jobs done");
                }
            }
        }
    }
}
