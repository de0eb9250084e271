//! Exact readers: grammars as relations between a text and its value, and numbers read and written by them.
//! What stands in one field of a file: dates, digests, names of properties, revisions and transactions.
//! The base of the store: what every layer speaks of. Files and their names, paths, kinds and actions.
//! At which call of a disk something failed, and why a repository isn't made or opened: each program tells its user which call
//! it was.
//! What goes in and out but files: a source, a sink, a clock, dice and a gate; and writing a text whole, or after a failure a
//! first part of it.
//! A value that only clauses read, carried by real code.
#![tactic(auto)]

mod action;
mod failed;
mod faults;
mod fields;
mod grammar;
mod kind;
mod name;
mod name_digits;
mod note;
mod output;
mod pairs;
mod paths;
mod places;
mod room;
mod small_fault;
mod streams;

pub use action::Action;
pub use failed::{Failed, counted};
pub use faults::Faults;
pub use fields::date::{read_date, write_date};
pub use fields::digest::HexDigest;
pub use fields::prop_name::{BadPropName, PropName, PropNameError};
pub use fields::rev_num::RevNum;
pub use fields::txn_name::{TxnName, plain_txn_name, put_txn_name, read_txn_name};
pub use grammar::base36::{B36, next_b36, put_b36, read_b36, write_b36};
pub use grammar::decimals::{put_dec, read_dec, write_dec};
pub use grammar::digits::digit_of;
pub use grammar::read_error::ReadError;
pub use grammar::{base36, cuts, decimals, pieces};
pub use kind::Kind;
pub use name::Name;
pub use name_digits::push_base36;
pub use note::{Claims, Note, Says, no_note};
pub use output::print;
pub use pairs::Pairs;
pub use paths::bad_path::{BadPath, PathError, PathFault};
pub use paths::path::FsPath;
pub use paths::path_text::is_name;
pub use places::create_fault::CreateFault;
pub use places::open_fault::OpenFault;
pub use places::place::{BeginPlace, CommitPlace, CreatePlace, DiskPlace, OpenPlace, PackPlace};
pub use room::fitting;
pub use small_fault::{SmallFault, SmallFile};
pub use streams::{Clock, Dice, Gate, GatePlace, Sink, Source};
