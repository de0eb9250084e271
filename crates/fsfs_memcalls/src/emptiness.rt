// Whether nothing stands below a path.
ghost use Rattle.std.specs.Prelude.{◌≡◌, ◌<◌, ◌^◌, true, false, None, List, ℕ};
ghost use Rattle.fsfs_folders.specs.System.Paths.{is_below, has_path};
ghost use Rattle.fsfs_folders.specs.System.CallRecord.{file_count, names_after, IsEmptyAt};
ghost use Rattle.fsfs_memcalls.specs.Told.{beginning_of, calls_of};
ghost use Rattle.fsfs_memcalls.specs.Emptiness.{IsClearAt};
ghost use Rattle.fsfs_memcalls.specs.Places.{paths_of};

use crate::made::{MemBeginning, MemCall};
use crate::standing::{file_at, has_folder, text_of};
use fsfs_folders::Path;

// Whether the second text is that of a path below the first.
fn is_text_below(above: &[u8], text: &[u8]) -> bool
    ensures { result ≡ is_below above.now text.now }
{
    match above {
        [] => match text {
            [] => false,
            [letter, ..] => *letter == b'/',
        },
        [a, rest @ ..] => match text {
            [] => false,
            [b, more @ ..] => *a == *b && is_text_below(rest, more),
        },
    }
}

// Whether nothing stands at a path.
fn is_clear(first: &MemBeginning, calls: &[MemCall], path: &Path) -> bool
    requires { file_count (beginning_of first.now) (calls_of calls.now) < 2 ^ 64 }
    ensures folder { result ≡ true → (names_after (beginning_of first.now) (calls_of calls.now)).folders path.now ≡ false }
    ensures file { result ≡ true → (names_after (beginning_of first.now) (calls_of calls.now)).files path.now ≡ None }
{
    !has_folder(first, calls, text_of(path)) && file_at(first, calls, text_of(path)).is_none()
}

// Whether a path isn't below another, or nothing stands at it.
fn is_clear_below(first: &MemBeginning, calls: &[MemCall], above: &Path, path: &Path) -> bool
    requires { file_count (beginning_of first.now) (calls_of calls.now) < 2 ^ 64 }
    ensures { result ≡ true → IsClearAt (names_after (beginning_of first.now) (calls_of calls.now)) above.now path.now }
{
    if is_text_below(text_of(above), text_of(path)) {
        return is_clear(first, calls, path);
    }
    true
}

// Whether nothing stands at those of these paths that are below one.
fn are_clear(first: &MemBeginning, calls: &[MemCall], above: &Path, paths: &[Path]) -> bool
    requires { file_count (beginning_of first.now) (calls_of calls.now) < 2 ^ 64 }
    ensures { result ≡ true → (q : List ℕ) → has_path paths.now q ≡ true → IsClearAt (names_after (beginning_of first.now) (calls_of calls.now)) above.now q }
{
    for path in paths {
        if !is_clear_below(first, calls, above, path) {
            return false;
        }
    }
    true
}

/// Whether nothing stands below a path. The paths are those at which something may stand.
pub fn is_empty_at(first: &MemBeginning, calls: &[MemCall], above: &Path, paths: &[Path]) -> bool
    requires small { file_count (beginning_of first.now) (calls_of calls.now) < 2 ^ 64 }
    requires all { paths.now ≡ paths_of (beginning_of first.now) (calls_of calls.now) }
    ensures { result ≡ true → IsEmptyAt (names_after (beginning_of first.now) (calls_of calls.now)) above.now }
{
    are_clear(first, calls, above, paths)
}
