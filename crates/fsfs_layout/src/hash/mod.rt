//! Hash dumps: property lists, directories and revision property files.

pub(crate) mod children;
pub(crate) mod dump;
pub(crate) mod error;
pub(crate) mod in_place;
pub(crate) mod writing;
