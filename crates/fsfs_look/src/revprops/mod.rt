//! The properties of a revision, what `svnlook author`, `date`, `log` and `info` print of them, and the laws of these texts.

pub(crate) mod date;
pub(crate) mod laws;
pub(crate) mod lines;
pub(crate) mod looks;
pub(crate) mod reading;
