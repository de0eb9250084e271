// What a table counts: what crashes left, and the commits that were answered before them.
use fsfs_memory::Transcript;

/// What crashes left, counted.
#[derive(Clone, Copy)]
pub struct Tally {
    images: u64,
    acknowledged: u64,
    missing: u64,
}

// The job became a revision.
fn is_committed(answer: &str) -> bool {
    answer.starts_with("r")
}

// What the job makes is there already.
fn is_there(answer: &str) -> bool {
    answer.starts_with("conflict ")
}

impl Tally {
    /// Nothing yet.
    pub fn new() -> Tally {
        Tally {
            images: 0,
            acknowledged: 0,
            missing: 0,
        }
    }

    /// One more that a crash left: what the jobs answered before it, and what they answer when they are done once more. Each job makes
    /// a path that its base lacks, so what it made is there where it clashes.
    pub fn count(&mut self, first: &str, again: &str) {
        self.images = self.images.saturating_add(1);
        let mut later = again.split("; ");
        for answer in first.split("; ") {
            let there = later.next().is_some_and(is_there);
            if is_committed(answer) {
                self.acknowledged = self.acknowledged.saturating_add(1);
                if !there {
                    self.missing = self.missing.saturating_add(1);
                }
            }
        }
    }

    /// Writes what was counted.
    pub fn put(&self, out: &mut Transcript) {
        out.tell("images: ", &self.images);
        out.tell("; commits answered before: ", &self.acknowledged);
        out.tell(", missing: ", &self.missing);
        out.say("\n");
    }
}
