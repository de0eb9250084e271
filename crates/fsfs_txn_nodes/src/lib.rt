//! What the files of a transaction's folder say of it: which changes of files go with which steps of an edit.
//! The own node-revisions of a transaction, held in memory and written into its bench.
#![tactic(auto)]

mod memory;
mod txn_folder;

pub use memory::files::OwnFiles;
pub use memory::held_nodes::HeldNodes;
pub use memory::texts::OwnTexts;
pub use txn_folder::ids::id_fits;
pub use txn_folder::laws::changes_tell_the_folder;
