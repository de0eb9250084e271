//! The calls of a disk that passes share. Each takes the disk, makes one call, and gives the disk back: that is one step of the
//! machine.

pub(crate) mod calls;
pub(crate) mod firsts;
pub(crate) mod gives;
pub(crate) mod labels;
pub(crate) mod packs;
pub(crate) mod plays;
pub(crate) mod reads;
