// A gate at which other jobs commit each time that a job is about to ask for the write lock.
use fsfs_base::{Gate, GatePlace};
use fsfs_memory::HoldGate;
use std::alloc::{AllocError, Global};
use std::sync::atomic::AtomicUsize;
use std::sync::atomic::Ordering::SeqCst;

// One time that the job asks: another job waits before the lock until this one has come there, and this one until the other is done.
#[derive(Drop)]
struct Round {
    other: HoldGate,
    job: HoldGate,
}

impl Round {
    fn new(who: u64, other: u64) -> Round {
        Round {
            other: HoldGate::new(GatePlace::BeforeLock, other, GatePlace::BeforeLock, who),
            job: HoldGate::new(GatePlace::BeforeLock, who, GatePlace::AfterJob, other),
        }
    }

    fn gave_up(&self) -> bool {
        self.other.gave_up() || self.job.gave_up()
    }
}

impl Gate for Round {
    fn at(&self, place: GatePlace, who: u64) {
        self.other.at(place, who);
        self.job.at(place, who);
    }
}

/// Holds a job, the first times that it is about to ask for the lock, until the next of some others has committed.
#[derive(Drop)]
pub struct Overtaking {
    who: u64,
    rounds: Vec<Round>,
    asked: AtomicUsize,
}

impl Overtaking {
    /// The job, and the others, in the order in which they commit.
    pub fn new(alloc: Global, who: u64, others: &[u64]) -> Result<Overtaking, AllocError> {
        let mut rounds = Vec::new(alloc);
        for other in others {
            rounds.push(Round::new(who, *other))?;
        }
        Ok(Overtaking {
            who,
            rounds,
            asked: AtomicUsize::new(0),
        })
    }

    /// How often the job has asked for the lock.
    pub fn asked(&self) -> usize {
        self.asked.load(SeqCst)
    }

    /// Whether a job that was to be held went on by itself.
    pub fn gave_up(&self) -> bool {
        self.rounds.iter().any(|round| round.gave_up())
    }
}

impl Gate for Overtaking {
    fn at(&self, place: GatePlace, who: u64) {
        if place == GatePlace::BeforeLock && who == self.who {
            let round = self.asked.fetch_add(1, SeqCst);
            if let Some(round) = self.rounds.get(round) {
                round.at(place, who);
            }
        } else {
            for round in self.rounds.iter() {
                round.at(place, who);
            }
        }
    }
}
