//! The beginning of a transaction: its name is drawn, the root of its base is read, and its root and its bench are made. And its
//! end, where it is not committed.
//! A transaction is begun by turns: with the lock its name is drawn; then the root of its base is read, and its bench is made.
//! A transaction is purged by turns: what its bench holds goes, and its label.
#![tactic(auto)]

mod begin_fault;
mod beginning;
mod begun;
mod drawing;
mod making;
mod name_fault;
mod purge_fault;
mod purging;
mod root;

pub use begin_fault::BeginFault;
pub use beginning::begin;
pub use begun::Begun;
pub use purge_fault::PurgeFault;
pub use purging::purge;
