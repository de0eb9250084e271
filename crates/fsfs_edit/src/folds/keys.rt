//! Paths by their texts.
ghost use Rattle.std.specs.Prelude.{◌≡◌, IfOk};
ghost use Rattle.std.specs.String.{string_bytes};
ghost use Rattle.indexmap.specs.IndexSet.{contains_text};
ghost use Rattle.fsfs_base.specs.Paths.{names_text};
ghost use Rattle.fsfs_edit.specs.Folds.Lasting.{any_above};

use fsfs_base::FsPath;
use indexmap::IndexSet;
use std::alloc::{AllocError, Global};

/// The text by which a path is told from others: each of its names with a `/` before it.
pub(crate) fn key_of(alloc: Global, path: &FsPath) -> Result<String, AllocError>
    ensures { IfOk result (λ key. string_bytes key ≡ names_text path.now) }
{
    let mut key = String::new(alloc);
    for name in path.names() {
        key.push_str("/")?;
        key.push_str(name.as_str())?;
    }
    Ok(key)
}

/// Whether a path above this one is in the set.
pub(crate) fn is_below_any(
    alloc: Global,
    paths: &IndexSet<String>,
    path: &FsPath,
) -> Result<bool, AllocError>
    ensures { IfOk result (λ below. below ≡ any_above (λ q. contains_text paths.now (names_text q)) path.now) }
{
    let mut above = String::new(alloc);
    for name in path.names() {
        if paths.contains(above.as_str()) {
            return Ok(true);
        }
        above.push_str("/")?;
        above.push_str(name.as_str())?;
    }
    Ok(false)
}
