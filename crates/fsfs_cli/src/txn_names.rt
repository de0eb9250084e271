//! The words TXN...
ghost use Rattle.std.specs.Prelude.{◌≡◌, map};
ghost use Rattle.fsfs_cli.specs.Grammars.{txns_named};
ghost use Rattle.fsfs_cli.specs.Readings.{Finds};

use crate::faults::words_fault::WordsFault;
use fsfs_base::{TxnName, plain_txn_name};
use std::alloc::Global;
use std::marker::Model;

/// Names of transactions, in the order in which they were given. A contract sees of each its base and its number.
#[derive(Debug, Drop)]
pub struct TxnNames {
    names: Vec<TxnName>,
}

impl Model for TxnNames {
    ghost use Rattle.std.specs.Prelude.{List, ℕ, map};

    ghost Value = { List (ℕ × ℕ) };

    ghost view = { λ a. map (λ t. (t.base, t.number.number)) a.names.items };
}

impl TxnNames {
    /// The names.
    pub fn as_slice(&self) -> &[TxnName]
        ensures { map (λ t. (t.base, t.number.number)) result.now ≡ self.now }
    {
        self.names.as_slice()
    }
}

/// The transactions that words name.
pub fn read_txns(alloc: Global, words: &[&str]) -> Result<TxnNames, WordsFault>
    ensures { Finds (txns_named (map (λ word. word.now) words.now)) (λ names. names) result }
{
    let mut names = Vec::new(alloc);
    for word in words {
        match plain_txn_name(word.as_bytes()) {
            Some(name) => names.push(name)?,
            None => return Err(WordsFault::Usage),
        }
    }
    Ok(TxnNames { names })
}
