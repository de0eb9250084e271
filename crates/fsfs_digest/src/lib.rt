//! The SHA-1 of a representation's text, which is read to its end and checked. That of a large text is taken by a thread beside
//! the reading.
#![tactic(auto)]

mod beside;
mod piece;
mod text;

pub use beside::is_large;
pub use text::sha1_of_rep;
