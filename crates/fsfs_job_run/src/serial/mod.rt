//! The jobs of a script one after another: what each does to what the pass of a repository knows, the laws of that, and what is told
//! of them.

pub(crate) mod job_gate;
pub(crate) mod laws;
pub(crate) mod output;
pub(crate) mod statuses;
