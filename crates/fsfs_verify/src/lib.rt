//! A check of all revisions of a repository, over any book: whether their bytes and their property files show a history, or
//! what is wrong with them and where.
//!
//! A revision is checked by what it wrote itself: each of its node-revisions once, with its text, its properties and its
//! entries, its changed paths and its property file. What a new directory holds of earlier revisions stood in the directory's
//! predecessor, so it was checked with its own revision.
#![tactic(auto)]

mod above;
mod all;
mod contents;
mod copies;
mod damage;
mod dirs;
mod edges;
mod items;
mod lines;
mod links;
mod nodes;
mod numbers;
mod parts;
mod preds;
mod props;
mod revision;
mod roots;
mod same;

pub use all::verify;
