// A source, a sink, a clock, dice and a gate.
ghost use Rattle.std.specs.Prelude.{◌≡◌, ◌≤◌, ◌<◌, ℕ, List, Option, length, take, IfOk, IfSome, OnErr};
ghost use Rattle.fsfs_base.specs.Failures.{HasCause};
ghost use Rattle.fsfs_base.specs.Streams.{Takes, Adds};

use crate::Failed;

/// Bytes that come in, as the standard input.
pub trait Source {
    /// The bytes that remain; none where it doesn't tell.
    ghost remaining: { Self → Option (List ℕ) };

    /// How often it has failed.
    ghost faults: { Self → ℕ };

    /// Reads some bytes into the beginning of the buffer and answers how many; 0 is the end, unless the buffer is empty.
    fn read(&mut self, buffer: &mut [u8]) -> Result<usize, Failed>
        ensures bound { IfOk result (λ n. n ≤ length buffer.new) }
        ensures bytes { IfOk result (λ n. Takes (remaining self.old) (remaining self.new) n buffer.new) }
        ensures err { OnErr result (remaining self.new ≡ remaining self.old) }
        ensures cause { HasCause (faults self.old) (faults self.new) result };
}

/// Bytes that go out, as the standard output.
pub trait Sink {
    /// The bytes that were written; none where it doesn't tell.
    ghost written: { Self → Option (List ℕ) };

    /// How often it has failed.
    ghost faults: { Self → ℕ };

    /// Writes the first bytes of a piece and answers how many: some, unless the piece is empty.
    fn write(&mut self, bytes: &[u8]) -> Result<usize, Failed>
        ensures bound { IfOk result (λ n. n ≤ length bytes.now) }
        ensures some { IfOk result (λ n. 0 < length bytes.now → 0 < n) }
        ensures added { IfOk result (λ n. Adds (written self.old) (written self.new) (take n bytes.now)) }
        ensures err { OnErr result (written self.new ≡ written self.old) }
        ensures cause { HasCause (faults self.old) (faults self.new) result };
}

/// A clock that can't fail.
pub trait Clock {
    /// The moment that it gives next, where it tells.
    ghost next: { Self → Option ℕ };

    /// The moment now in microseconds since the beginning of 1970 in UTC, before the end of 2099.
    fn micros(&mut self) -> u64
        ensures range { result ≤ 4_102_444_799_999_999 }
        ensures value { IfSome (next self.old) (λ t. result ≡ t) };
}

/// Random bytes that can't fail.
pub trait Dice {
    /// The bytes that they give next, where they tell.
    ghost next: { Self → Option (List ℕ) };

    /// Sixteen bytes, as the identifier of a repository is made of.
    fn bytes16(&mut self) -> [u8; 16]
        ensures value { IfSome (next self.old) (λ b. result ≡ b) };
}

/// A place of a run at which a gate may hold its caller.
#[derive(Clone, Copy, PartialEq, Eq)]
pub enum GatePlace {
    BeforeLock,
    AfterPutRev,
    BeforeReveal,
    AfterPackWritten,
    InRead,
    AfterJob,
}

/// What a run passes at some of its places, so that a test can hold it there. `who` is a job's number, or 0.
pub trait Gate {
    fn at(&self, place: GatePlace, who: u64);
}
