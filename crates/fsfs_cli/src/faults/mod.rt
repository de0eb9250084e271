//! Why a command didn't do what its words say: the fault, by groups, its words, its status, and its line.

pub(crate) mod bad_words;
pub(crate) mod fault;
pub(crate) mod limit_fault;
pub(crate) mod line;
pub(crate) mod output;
pub(crate) mod outside_fault;
pub(crate) mod repository_fault;
pub(crate) mod request_fault;
pub(crate) mod values;
pub(crate) mod words_fault;
