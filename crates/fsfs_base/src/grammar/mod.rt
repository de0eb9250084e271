//! Exact readers: grammars as relations between a text and its value, and numbers read and written by them.

pub mod base36;
pub mod cuts;
pub mod decimals;
pub(crate) mod digits;
pub mod pieces;
pub(crate) mod read_error;
