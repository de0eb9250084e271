//! Job scripts, line by line: what a job is, and what the first line of a command says, or why it is refused.

pub(crate) mod edit;
pub(crate) mod job;
pub mod laws;
pub(crate) mod lines;
pub(crate) mod parts;
pub(crate) mod refusal;
pub(crate) mod texts;
pub(crate) mod verbs;
pub(crate) mod words;
