//! The bare calls of the system on what stands below a folder of the machine, one for one, over the standard library. They tell
//! nothing of what they did.
#![tactic(auto)]

mod errors;
mod file_system;
mod host;

pub use file_system::HostFileSystem;
pub use host::HostCalls;
