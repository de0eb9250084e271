//! Disks and their benches, kept in memory, and a host that has such disks. They tell all that they have, fail at the calls that
//! are listed, and leave any image of a crash.
//! Streams, a clock and dice kept in memory. They tell all that they have, and fail at the calls that are listed.
//! A gate that holds a caller at a place of a run, until another place was passed.
//! Bytes as a person writes and reads them in the texts of the example programs: `\n`, `\t`, `\\` and `\xNN` stand for a
//! byte, and every other character for its own bytes. What these programs write, the words and lines that they read, and the
//! examples that these make.
//! Sample revisions for tests.
#![tactic(auto)]

mod escapes;
mod gate;
mod memdisk;
mod numbers;
mod putting;
mod revisions;
mod streams;
mod transcript;
mod words;

pub use escapes::{EscapeError, bytes_of};
pub use gate::HoldGate;
pub use memdisk::bench::MemBench;
pub use memdisk::disk::MemDisk;
pub use memdisk::host::MemHost;
pub use numbers::{ListError, numbers_of, picks_of};
pub use putting::{file_of, put_file};
pub use revisions::{FIRST_DIRECTORY, REVISION_0};
pub use streams::{FixedClock, FixedDice, MemSink, MemSource, NoGate};
pub use transcript::Transcript;
pub use words::{Example, cut, examples_of, lines_of};
