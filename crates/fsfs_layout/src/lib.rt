//! The layout of a repository: the small files that say what stands where, and the names of its files.
//!
//! Numbers, names and texts are those of the libsvn_fs_fs structure file for formats 3 and 4.
//! Hash dumps: property lists, directories and revision property files.
//!
//! A dump is, for each pair, `K <length>`, the key, `V <length>` and the value, each with a newline, and then `END`.
//! (The libsvn_fs_fs structure file.)
#![tactic(auto)]

mod folders;
mod format;
mod hash;
mod layout;
mod names;
mod only_file;
mod opened;
mod part_name;
mod repository_file;
mod small_files;
mod txn_file;

pub use folders::Folders;
pub use format::Format;
pub use hash::children::read_children;
pub use hash::dump::read_hash;
pub use hash::error::{HashError, HashFault};
pub use hash::in_place::read_hash_in_place;
pub use hash::writing::{add_entry, drop_entry, put_pairs, write_hash};
pub use layout::Layout;
pub use names::txn_entry;
pub use only_file::OnlyFile;
pub use opened::Opened;
pub use part_name::PartName;
pub use repository_file::{RepositoryFile, names_are_apart, small_file_name};
pub use small_files::format_file::{FormatFile, read_format, write_format};
pub use small_files::manifest_file::{ManifestError, read_manifest, write_manifest};
pub use small_files::next_ids_file::{NextIds, read_next_ids, write_next_ids};
pub use small_files::rev_files::{
    read_current, read_min_unpacked_rev, write_current, write_min_unpacked_rev,
};
pub use small_files::txn_current_file::{read_txn_current, write_txn_current};
pub use small_files::uuid_file::{Uuid, read_uuid, write_uuid};
pub use txn_file::TxnFile;
