//! A path's last name.
ghost use Rattle.std.specs.Prelude.{◌≡◌, ◌++◌, ◌∷◌, [], MatchOption};
ghost use Rattle.fsfs_model.specs.Flat.Edits.{parent};

use fsfs_base::FsPath;

/// The last name of a path; the root has none.
pub(crate) fn last_name(path: &FsPath) -> Option<&str>
    ensures { MatchOption result (path.now ≡ []) (λ name. path.now ≡ parent path.now ++ name.now ∷ []) }
{
    match path.names() {
        [] => None,
        [.., name] => Some(name.as_str()),
    }
}
