//! The real outside of the programs but for disks: the machine's standard streams, its clock, its random bytes and the words of the
//! command line. The streams tell nothing of what comes or goes, and count their failures.
#![tactic(auto)]

mod arguments;
mod once;
mod progress;
mod standard;

pub use arguments::words;
pub use once::{SystemClock, SystemDice};
pub use progress::{Progress, ProgressGate};
pub use standard::{StreamSink, StreamSource};
