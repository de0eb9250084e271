// A file that is open.
use crate::Calls;
use fsfs_base::Name;

/// A file of the repository that is open, by the name that it was opened by.
#[derive(Drop)]
pub struct Opened<C: Calls + Drop> {
    pub name: Name,
    pub file: C::File,
}
