// Which calls of an object in memory fail.
ghost use Rattle.std.specs.Prelude.{◌≡◌, ◌↔◌, ◌≤◌, ◌+◌, ◌-◌, ◌^◌, min, IsTrue, IsErr};
ghost use Rattle.fsfs_base.specs.Failures.{HasCause, Rose};

use crate::failed::Failed;

/// The numbers of the calls that are to fail, the first call being 1, the number of the last call that may pass, how many
/// calls there were, and how often one failed.
#[derive(Drop)]
pub struct Faults {
    failing: Vec<u64>,
    last: u64,
    calls: u64,
    pub count: u64,
}

impl Faults {
    ghost use Rattle.fsfs_base.specs.Faults.{next_call, fails_next};

    pub fn new(failing: Vec<u64>) -> Faults
        ensures failing { result.failing ≡ failing }
        ensures last { result.last ≡ 2 ^ 64 - 1 }
        ensures calls { result.calls ≡ 0 }
        ensures count { result.count ≡ 0 }
    {
        Faults {
            failing,
            last: u64::MAX,
            calls: 0,
            count: 0,
        }
    }

    /// How many calls there were.
    pub fn calls(&self) -> u64
        ensures { result ≡ self.now.calls }
    {
        self.calls
    }

    /// So many calls more may pass, and each after them fails.
    pub fn fuse(&mut self, passing: u64)
        ensures last { self.new.last ≡ min (self.old.calls + passing) (2 ^ 64 - 1) }
        ensures failing { self.new.failing ≡ self.old.failing }
        ensures calls { self.new.calls ≡ self.old.calls }
        ensures count { self.new.count ≡ self.old.count }
    {
        self.last = self.calls.saturating_add(passing);
    }

    /// Counts a call. It fails where it is listed or behind the last that may pass, and only there.
    pub fn call(&mut self) -> Result<(), Failed>
        ensures fails { IsErr result ↔ IsTrue (fails_next self.old) }
        ensures calls { self.new.calls ≡ next_call self.old }
        ensures failing { self.new.failing ≡ self.old.failing }
        ensures last { self.new.last ≡ self.old.last }
        ensures cause { HasCause self.old.count self.new.count result }
    {
        self.calls = self.calls.saturating_add(1);
        let call = self.calls;
        if self.failing.contains(&call) || self.last < call {
            return Err(self.fail());
        }
        Ok(())
    }

    /// Counts a fault.
    pub fn fail(&mut self) -> Failed
        ensures calls { self.new.calls ≡ self.old.calls }
        ensures failing { self.new.failing ≡ self.old.failing }
        ensures last { self.new.last ≡ self.old.last }
        ensures later { self.old.count ≤ self.new.count }
        ensures rose { Rose self.old.count self.new.count }
    {
        self.count = self.count.saturating_add(1);
        Failed
    }
}
