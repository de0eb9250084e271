// The places of paths. One is empty while what it held is out.
ghost use Rattle.std.specs.Prelude.{◌≡◌, ℕ, List, Some, None, IfSome, IfNone, OnOk, OnErr, string_bytes};
ghost use Rattle.std.specs.BTreeMap.{get_by_text};
ghost use Rattle.fsfs_mount.specs.Places.{held_in, Sets};

use fsfs_folders::CallError;
use std::collections::BTreeMap;

/// Makes a place for a path, with this in it.
pub fn add<T: Drop>(
    places: &mut BTreeMap<String, Option<T>>,
    path: String,
    held: T,
) -> Result<(), CallError>
    ensures ok { OnOk result (Sets (get_by_text places.old) (get_by_text places.new) (string_bytes path) (Some held)) }
    ensures err { OnErr result ((p : List ℕ) → get_by_text places.new p ≡ get_by_text places.old p) }
{
    match places.insert(path, Some(held)) {
        Ok(_) => Ok(()),
        Err(_) => Err(CallError::Memory),
    }
}

/// Takes out what the place of a path holds. The place stays.
pub fn take<T: Drop>(places: &mut BTreeMap<String, Option<T>>, path: &str) -> Option<T>
    ensures taken { result ≡ held_in (get_by_text places.old path.now) }
    ensures emptied { IfSome result (λ held. Sets (get_by_text places.old) (get_by_text places.new) path.now None) }
    ensures none { IfNone result ((p : List ℕ) → get_by_text places.new p ≡ get_by_text places.old p) }
{
    match places.get_mut(path) {
        Some(place) => place.take(),
        None => None,
    }
}

/// Puts it back into the place of a path, which is empty.
pub fn put_back<T: Drop>(places: &mut BTreeMap<String, Option<T>>, path: &str, held: T)
    requires { get_by_text places.old path.now ≡ Some None }
    ensures { Sets (get_by_text places.old) (get_by_text places.new) path.now (Some held) }
{
    if let Some(place) = places.get_mut(path) {
        *place = Some(held);
    }
}
