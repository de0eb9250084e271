//! The gate of one job.
ghost use Rattle.std.specs.Prelude.{◌≡◌};

use fsfs_base::{Gate, GatePlace};

/// The gate of a run, as one of its jobs passes it: whatever the job calls passes it by the job's number.
#[derive(Clone, Copy)]
pub struct JobGate<'a, G: Gate> {
    gate: &'a G,
    number: u64,
}

impl<'a, G: Gate> JobGate<'a, G> {
    /// The gate for the job of this number.
    pub fn new(gate: &'a G, number: u64) -> JobGate<'a, G>
        ensures { result.number ≡ number }
    {
        JobGate { gate, number }
    }
}

impl<'a, G: Gate> Gate for JobGate<'a, G> {
    fn at(&self, place: GatePlace, _who: u64) {
        self.gate.at(place, self.number);
    }
}
