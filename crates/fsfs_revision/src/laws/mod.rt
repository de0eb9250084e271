//! Laws of what the bytes of revisions show. These functions do nothing: what they ensure is proved once for all.

pub(crate) mod ancestry;
pub(crate) mod places;
pub(crate) mod shows;
