// The ways in which a script is run.
use fsfs_base::GatePlace;
use fsfs_memory::HoldGate;
use std::alloc::{AllocError, Global};

/// A job that is held at a place until another has passed a place.
#[derive(Clone, Copy)]
pub struct Hold {
    pub who: u64,
    pub place: GatePlace,
    pub until_who: u64,
    pub until_place: GatePlace,
}

impl Hold {
    /// A gate that holds it.
    pub fn gate(self) -> HoldGate {
        HoldGate::new(self.place, self.who, self.until_place, self.until_who)
    }
}

/// What becomes of a job.
#[derive(Drop)]
pub enum Course {
    /// No job is held.
    Free,
    /// One is held once.
    Held(Hold),
    /// Each time that the job `who` is about to ask for the write lock, the next of the others commits first.
    Overtaken { who: u64, others: Vec<u64> },
}

/// How often a script is run, and what becomes of its jobs.
#[derive(Drop)]
pub struct Way {
    pub times: u64,
    pub course: Course,
}

fn place_of(word: &str) -> Option<GatePlace> {
    match word {
        "BeforeLock" => Some(GatePlace::BeforeLock),
        "AfterPutRev" => Some(GatePlace::AfterPutRev),
        "BeforeReveal" => Some(GatePlace::BeforeReveal),
        "InRead" => Some(GatePlace::InRead),
        "AfterJob" => Some(GatePlace::AfterJob),
        _ => None,
    }
}

// `N held at PLACE until N passed PLACE`
fn hold_of(words: &[&str]) -> Option<Hold> {
    match words {
        [
            who,
            "held",
            "at",
            place,
            "until",
            until_who,
            "passed",
            until_place,
        ] => Some(Hold {
            who: who.parse::<u64>().ok()?,
            place: place_of(place)?,
            until_who: until_who.parse::<u64>().ok()?,
            until_place: place_of(until_place)?,
        }),
        _ => None,
    }
}

fn numbers_of(alloc: Global, words: &[&str]) -> Result<Option<Vec<u64>>, AllocError> {
    let mut numbers = Vec::new(alloc);
    for word in words {
        let Ok(number) = word.parse::<u64>() else {
            return Ok(None);
        };
        numbers.push(number)?;
    }
    Ok(Some(numbers))
}

// `N overtaken by N ..`
fn overtaken_of(alloc: Global, who: &str, others: &[&str]) -> Result<Option<Course>, AllocError> {
    let others = numbers_of(alloc, others)?;
    Ok(match (who.parse::<u64>(), others) {
        (Ok(who), Some(others)) => Some(Course::Overtaken { who, others }),
        _ => None,
    })
}

fn times_of(times: &str, course: Option<Course>) -> Option<Way> {
    Some(Way {
        times: times.parse::<u64>().ok()?,
        course: course?,
    })
}

fn way_of(alloc: Global, words: &[&str]) -> Result<Option<Way>, AllocError> {
    Ok(match words {
        [times, "times"] => times_of(times, Some(Course::Free)),
        [times, "times,", who, "overtaken", "by", others @ ..] => {
            times_of(times, overtaken_of(alloc, who, others)?)
        }
        [times, "times,", rest @ ..] => times_of(
            times,
            hold_of(rest).map(|hold| Course::Held(hold)),
        ),
        _ => None,
    })
}

/// Reads `N times`, with `, N held at PLACE until N passed PLACE` or `, N overtaken by N ..` behind it.
pub fn read_way(alloc: Global, line: &str) -> Result<Option<Way>, AllocError> {
    let words: Vec<&str> = line.split(' ').collect(alloc)?;
    way_of(alloc, &words)
}
