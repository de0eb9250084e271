//! The word PATH.
ghost use Rattle.std.specs.Prelude.{◌≡◌, ◌≢◌, ◌∷◌, ◌++◌, [], ℕ, List, MatchOption, IfOk};
ghost use Rattle.std.specs.String.{string_bytes};
ghost use Rattle.fsfs_cli.specs.Grammars.{IsPathOf, path_meant};
ghost use Rattle.fsfs_cli.specs.Readings.{ReadsPath};

use crate::faults::words_fault::WordsFault;
use fsfs_base::FsPath;
use std::alloc::{AllocError, Global};

// What stands before a `/` at the end.
fn before_slash(text: &str) -> Option<&str>
    ensures { MatchOption result ((front : List ℕ) → text.now ≢ front ++ 47 ∷ []) (λ front. text.now ≡ front.now ++ 47 ∷ []) }
{
    text.strip_suffix('/')
}

// What stands behind a `/` at the beginning.
fn behind_slash(text: &str) -> Option<&str>
    ensures { MatchOption result ((rest : List ℕ) → text.now ≢ 47 ∷ rest) (λ rest. text.now ≡ 47 ∷ rest.now) }
{
    text.strip_prefix('/')
}

// The text of the path that a word means.
fn meant(alloc: Global, word: &str) -> Result<String, AllocError>
    ensures { IfOk result (λ text. string_bytes text ≡ path_meant word.now) }
{
    let word = before_slash(word).unwrap_or(word);
    let names = behind_slash(word).unwrap_or(word);
    let mut text = String::from_str(alloc, "/")?;
    text.push_str(names)?;
    Ok(text)
}

/// The path that a word means: one without a `/` at its beginning gets one, and one `/` at its end is dropped, so that `/` stays.
pub fn read_path(alloc: Global, word: &str) -> Result<FsPath, WordsFault>
    ensures { ReadsPath word.now result }
{
    let text = meant(alloc, word)?;
    Ok(FsPath::parse(alloc, text.as_str())?)
}
