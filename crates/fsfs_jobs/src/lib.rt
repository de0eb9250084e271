//! What a script of jobs does to a history, what becomes of each job, and the lines that tell it.
//! The edits of a job, done in a transaction one after another up to the first that is refused.
#![tactic(auto)]

mod answer;
mod ending;
mod job_edits;
mod line;
mod output;
mod properties;

pub use answer::{JobAnswer, TextRead};
pub use ending::Ending;
pub use job_edits::edits::{Stopped, do_edits};
pub use output::{print_job_line, print_packed, print_sound, print_youngest};
pub use properties::properties_of;
