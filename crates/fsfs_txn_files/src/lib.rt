//! Texts in a transaction's prototype revision file.
//!
//! A text is appended as a plain representation: the line `PLAIN`, its bytes, and the line `ENDREP`. (The libsvn_fs_fs
//! structure file.)
//! The files of a transaction's folder, as its edits write them into the bench: node-revisions, the entries of directories and what
//! is put or taken of them, lists of properties, `next-ids` and `changes`.
//!
//! The forms are those of the libsvn_fs_fs structure file ("Transaction layout") for format 4.
#![tactic(auto)]

mod change;
mod folder_file;
mod laws;
mod making;
mod proto_rev;
mod spelling;
mod write_error;

pub use change::{FileChange, How};
pub use folder_file::FolderFile;
pub use laws::{children_tell_their_entries, names_are_apart};
pub use making::make_all;
pub use proto_rev::appending::append_text;
pub use proto_rev::laws::{appended_texts_are_read, texts_stay};
pub use proto_rev::text_error::{MAX_TEXT, TextError};
pub use write_error::FileFault;
