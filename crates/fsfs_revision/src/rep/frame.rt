//! What stands around the text of a representation. (The libsvn_fs_fs structure file.)

/// How many bytes stand before the text: the line `PLAIN`.
pub const PLAIN_LEN: u64 = 6;

/// How many bytes stand behind it: the line `ENDREP`.
pub const ENDREP_LEN: usize = 7;
