//! What a pass does with its transactions, by turns: they begin, are listed, committed and purged.
//! The repository that runs, with one owner: opened, read, changed by transactions, packed, and closed.
//! A repository that passes share: opened, lent to its passes, and closed.
#![tactic(auto)]

mod owned;
mod shared;
mod txns;

pub use fsfs_begin::BeginFault;
pub use fsfs_commit::Standing;
pub use fsfs_pack::{PackDone, PackEnd, PackFault, pack};
pub use fsfs_txn::{Deleted, Made, PathOpened, TextSet, Txn, TxnError};
pub use fsfs_txn_nodes::HeldNodes;
pub use owned::reading::Reader;
pub use owned::repo::{OpenedRepo, Repo};
pub use shared::opening::OpenedShared;
pub use shared::repo::SharedRepo;
pub use txns::answers::{CommitAnswer, CommitBar};
pub use txns::beginning::begin_txn;
pub use txns::committing::commit_txn;
pub use txns::purging::purge_txn;
