//! The bare calls of the system on files and folders, with a record of what they did, and what a crash may leave by that record.
//! The files of a repository and its benches over the bare calls of the system: what they tell is read off the record of these calls,
//! and what a crash may leave of the system shows one of the images that are told.
#![tactic(auto)]

mod benches;
mod folders;
mod law;
mod listing;
mod noted;
mod opened;
mod reading;
mod system;
mod texts;
mod writing;

pub use benches::bench::{FolderBench, PROTO};
pub use folders::Folders;
pub use law::{leaves_images, leaves_labels};
pub use opened::Opened;
pub use system::calls::{Calls, OpenFile};
pub use system::error::CallError;
pub use system::mode::{Mode, Modes};
pub use system::path::Path;
