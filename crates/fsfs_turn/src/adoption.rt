//! What a commit's first call is about.
use fsfs_base::Pairs;
use fsfs_machine::Txn;
use fsfs_tree::Revision;

/// A transaction, the properties of the revision to come, and that revision: what a commit's first call is about. It stands in notes
/// alone.
#[derive(Drop)]
pub struct Adoption {
    pub txn: Txn,
    pub properties: Pairs,
    pub next: Revision,
}
