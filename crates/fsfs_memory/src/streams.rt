// Streams, a clock and dice in memory.
ghost use Rattle.std.specs.Prelude.{◌≡◌, ◌≤◌, Some, [], vec_len};

use fsfs_base::{Clock, Dice, Failed, Faults, Gate, GatePlace, Sink, Source};
use std::alloc::Global;

/// Bytes to read. It can fail at reads that are chosen.
#[derive(Drop)]
pub struct MemSource {
    bytes: Vec<u8>,
    at: usize,
    faults: Faults,
    ghost in_range: { at ≤ vec_len bytes },
}

impl MemSource {
    ghost use Rattle.fsfs_memory.specs.Streams.{remaining_of};

    pub fn new(alloc: Global, bytes: Vec<u8>) -> MemSource
        ensures remaining { remaining_of result ≡ bytes.items }
        ensures faults { result.faults.count ≡ 0 }
    {
        MemSource::with_faults(bytes, Vec::new(alloc))
    }

    /// A source whose reads with these numbers fail. The first read is 1.
    pub fn with_faults(bytes: Vec<u8>, failing: Vec<u64>) -> MemSource
        ensures remaining { remaining_of result ≡ bytes.items }
        ensures faults { result.faults.count ≡ 0 }
        ensures failing { result.faults.failing ≡ failing }
        ensures calls { result.faults.calls ≡ 0 }
    {
        MemSource {
            bytes,
            at: 0,
            faults: Faults::new(failing),
        }
    }
}

impl Source for MemSource {
    ghost use Rattle.fsfs_memory.specs.Streams.{remaining_of};

    ghost remaining = { λ s. Some (remaining_of s) };

    ghost faults = { λ s. s.faults.count };

    fn read(&mut self, buffer: &mut [u8]) -> Result<usize, Failed> {
        self.faults.call()?;
        let rest = &self.bytes[self.at..];
        let count = rest.len().min(buffer.len());
        buffer[..count].copy_from_slice(&rest[..count]);
        self.at += count;
        Ok(count)
    }
}

/// What was written. It can fail at writes that are chosen, and fails where memory is wanting.
#[derive(Drop)]
pub struct MemSink {
    bytes: Vec<u8>,
    faults: Faults,
}

impl MemSink {
    ghost use Rattle.fsfs_memory.specs.Streams.{written_to};

    pub fn new(alloc: Global) -> MemSink
        ensures written { written_to result ≡ [] }
        ensures faults { result.faults.count ≡ 0 }
    {
        MemSink::with_faults(alloc, Vec::new(alloc))
    }

    /// A sink whose writes with these numbers fail. The first write is 1.
    pub fn with_faults(alloc: Global, failing: Vec<u64>) -> MemSink
        ensures written { written_to result ≡ [] }
        ensures faults { result.faults.count ≡ 0 }
        ensures failing { result.faults.failing ≡ failing }
        ensures calls { result.faults.calls ≡ 0 }
    {
        MemSink {
            bytes: Vec::new(alloc),
            faults: Faults::new(failing),
        }
    }

    /// All that was written.
    pub fn bytes(&self) -> &[u8]
        ensures { result.now ≡ written_to self.now }
    {
        &self.bytes
    }
}

impl Sink for MemSink {
    ghost use Rattle.fsfs_memory.specs.Streams.{written_to};

    ghost written = { λ s. Some (written_to s) };

    ghost faults = { λ s. s.faults.count };

    fn write(&mut self, bytes: &[u8]) -> Result<usize, Failed> {
        self.faults.call()?;
        if self.bytes.extend_from_slice(bytes).is_err() {
            return Err(self.faults.fail());
        }
        Ok(bytes.len())
    }
}

/// A clock that stands.
#[derive(Clone, Copy)]
pub struct FixedClock {
    micros: u64,
    ghost in_range: { micros ≤ 4_102_444_799_999_999 },
}

impl FixedClock {
    /// The clock that always gives this moment, in microseconds since the beginning of 1970 in UTC.
    pub fn new(micros: u64) -> FixedClock
        requires { micros ≤ 4_102_444_799_999_999 }
        ensures { result.micros ≡ micros }
    {
        FixedClock { micros }
    }
}

impl Clock for FixedClock {
    ghost next = { λ c. Some c.micros };

    fn micros(&mut self) -> u64 {
        self.micros
    }
}

/// Dice that always fall alike.
#[derive(Clone, Copy)]
pub struct FixedDice {
    pub bytes: [u8; 16],
}

impl Dice for FixedDice {
    ghost next = { λ d. Some d.bytes };

    fn bytes16(&mut self) -> [u8; 16] {
        self.bytes
    }
}

/// A gate that holds nobody.
#[derive(Clone, Copy)]
pub struct NoGate;

impl Gate for NoGate {
    fn at(&self, _place: GatePlace, _who: u64) {}
}
