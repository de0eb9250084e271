//! The limits of a path.
ghost use Rattle.std.specs.Prelude.{◌≡◌, true, false, map, OnOk, IfErr};
ghost use Rattle.std.specs.List.{AllByRecursion};
ghost use Rattle.std.specs.String.{string_bytes};
ghost use Rattle.fsfs_base.specs.PathTexts.{IsName, IsPath};
ghost use Rattle.fsfs_noderev.specs.Limits.{IsPast, IfPast};

use fsfs_base::{FsPath, is_name};
use std::alloc::{AllocError, AllocFailed, Global};
use thiserror::Error;

const MAX_PATH: usize = 4096;

const MAX_NAMES: usize = 128;

/// The limit that a path is past.
#[derive(Clone, Copy, Debug)]
pub enum PathLimit {
    /// It has more than 128 names.
    Names,
    /// Its text has more than 4,096 bytes.
    Bytes,
    /// One of its names is none: it is empty, `.` or `..`, or it has more than 255 bytes, a `/` or a control character.
    Name,
}

/// A path was not found to be within its limits.
#[derive(Clone, Copy, Debug, Error)]
pub enum LimitError {
    #[error("out of memory")]
    OutOfMemory,
    #[error("a path is past its limits")]
    Past(PathLimit),
}

impl From<AllocError> for LimitError {
    ghost use Rattle.std.specs.Prelude.{◌≡◌};
    ghost use Rattle.fsfs_noderev.specs.declared.limits.limit.LimitError.TheVariants.{OutOfMemory};

    ghost from_gives = { λ _ e. e ≡ OutOfMemory };

    fn from(_error: AllocError) -> LimitError {
        LimitError::OutOfMemory
    }
}

impl<T: Drop> From<AllocFailed<T>> for LimitError {
    ghost use Rattle.std.specs.Prelude.{◌≡◌};
    ghost use Rattle.fsfs_noderev.specs.declared.limits.limit.LimitError.TheVariants.{OutOfMemory};

    ghost from_gives = { λ _ e. e ≡ OutOfMemory };

    fn from(_error: AllocFailed<T>) -> LimitError {
        LimitError::OutOfMemory
    }
}

fn are_names(names: &[String]) -> bool
    ensures all { result ≡ true → AllByRecursion IsName (map string_bytes names.now) }
    ensures not_all { result ≡ false → ¬ AllByRecursion IsName (map string_bytes names.now) }
{
    match names {
        [] => true,
        [name, rest @ ..] => is_name(name.as_str()) && are_names(rest),
    }
}

/// Whether a path is within its limits: at most 128 names, each of them one that a path may have, and 4,096 bytes.
pub fn check_path(alloc: Global, path: &FsPath) -> Result<(), LimitError>
    ensures within { OnOk result (IsPath path.now) }
    ensures past { IfErr result (IfPast (λ limit. IsPast limit path.now)) }
{
    if path.depth() > MAX_NAMES {
        return Err(LimitError::Past(PathLimit::Names));
    }
    if !are_names(path.names()) {
        return Err(LimitError::Past(PathLimit::Name));
    }
    let text = path.text(alloc)?;
    if text.len() > MAX_PATH {
        return Err(LimitError::Past(PathLimit::Bytes));
    }
    Ok(())
}
