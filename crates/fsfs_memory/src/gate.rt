// A gate that holds its first caller.
ghost use Rattle.std.specs.Prelude.{◌≡◌, ◌≤◌, true};
ghost use Rattle.fsfs_memory.specs.Patience.{most_turns};

use fsfs_base::{Gate, GatePlace};
use std::sync::atomic::Ordering::SeqCst;
use std::sync::atomic::{AtomicBool, AtomicIn, Rule};
use std::thread;

// The turns for which a caller is held at most.
const TURNS: u64 = 20_000_000;

// After so many turns others may run on the processor: not after each, since that takes long where much else runs.
const TURNS_TO_YIELD: u64 = 10_000;

// A place, as the caller of that number passes it.
#[derive(Drop)]
struct Passing {
    place: GatePlace,
    who: u64,
}

impl Passing {
    fn is(&self, place: GatePlace, who: u64) -> bool
        ensures same { result ≡ true → (self.now.place ≡ place) × (self.now.who ≡ who) }
        ensures met { self.now.place ≡ place → self.now.who ≡ who → result ≡ true }
    {
        self.place == place && self.who == who
    }
}

// A number of turns.
struct Turns;

impl Rule for Turns {
    ghost use Rattle.std.specs.Prelude.{◌≤◌};
    ghost use Rattle.fsfs_memory.specs.Patience.{most_turns};

    ghost invariant = { λ n. n ≤ most_turns };
}

/// A gate that holds the first caller that passes one place until another was passed, and lets go by itself after 20,000,000 turns.
#[derive(Drop)]
pub struct HoldGate {
    held: Passing,
    until: Passing,
    came: AtomicBool,
    freed: AtomicBool,
    // The turns for which the caller was held.
    turns: AtomicIn<Turns>,
}

impl HoldGate {
    /// Holds `who` at `place` until `until_who` has passed `until_place`.
    pub fn new(place: GatePlace, who: u64, until_place: GatePlace, until_who: u64) -> HoldGate
        ensures held { (result.held.place ≡ place) × (result.held.who ≡ who) }
        ensures until { (result.until.place ≡ until_place) × (result.until.who ≡ until_who) }
    {
        HoldGate {
            held: Passing { place, who },
            until: Passing {
                place: until_place,
                who: until_who,
            },
            came: AtomicBool::new(false),
            freed: AtomicBool::new(false),
            turns: AtomicIn::new(0),
        }
    }

    /// For how many turns it has held its caller.
    pub fn turns(&self) -> u64
        ensures { result ≤ most_turns }
    {
        self.turns.load(SeqCst)
    }

    /// Whether it let its caller go though the other place was not passed.
    pub fn gave_up(&self) -> bool {
        self.turns() == TURNS
    }

    fn hold(&self) {
        for turn in 1..=TURNS {
            if self.freed.load(SeqCst) {
                return;
            }
            self.turns.store(turn, SeqCst);
            if turn % TURNS_TO_YIELD == 0 {
                thread::yield_now();
            }
        }
    }
}

impl Gate for HoldGate {
    fn at(&self, place: GatePlace, who: u64) {
        if self.until.is(place, who) {
            self.freed.store(true, SeqCst);
        }
        if self.held.is(place, who) && !self.came.swap(true, SeqCst) {
            self.hold();
        }
    }
}
