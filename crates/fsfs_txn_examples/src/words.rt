// The words of a line.
use fsfs_base::{FsPath, PropName, RevNum};
use fsfs_memory::bytes_of;
use std::alloc::Global;

/// The path that a word is.
pub fn path_of(alloc: Global, word: &str) -> Option<FsPath> {
    FsPath::parse(alloc, word).ok()
}

/// The name of a property that a word is.
pub fn prop_name_of(alloc: Global, word: &str) -> Option<PropName> {
    PropName::parse(alloc, word).ok()
}

/// The revision that a word is.
pub fn rev_of(word: &str) -> Option<RevNum> {
    RevNum::plain(word.as_bytes())
}

/// The bytes that a text stands for.
pub fn text_of(alloc: Global, text: &str) -> Option<Vec<u8>> {
    bytes_of(alloc, text).ok()
}
