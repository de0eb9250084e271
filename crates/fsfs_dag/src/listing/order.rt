//! The byte order of names.
ghost use Rattle.std.specs.Prelude.{◌≡◌, true};
ghost use Rattle.fsfs_dag.specs.Views.{entry_values};
ghost use Rattle.fsfs_dag.specs.Listing.Lists.{is_below, NamesRise};

use crate::DirEntry;
use std::cmp::Ordering;

/// Whether a name stands below another.
pub(crate) fn is_below(name: &str, middle: &[u8]) -> bool
    ensures { result ≡ is_below middle.now name.now }
{
    match name.as_bytes().cmp(middle) {
        Ordering::Less => true,
        Ordering::Equal | Ordering::Greater => false,
    }
}

/// Whether each name stands above the one before it.
pub(crate) fn rises(entries: &[DirEntry]) -> bool
    ensures { result ≡ true → NamesRise (entry_values entries.now) }
{
    let mut last: &[u8] = b"";
    for entry in entries {
        let name = entry.name.as_bytes();
        match last.cmp(name) {
            Ordering::Less => last = name,
            Ordering::Equal | Ordering::Greater => return false,
        }
    }
    true
}
