//! Names of properties.
ghost use Rattle.std.specs.Prelude.{◌≡◌, ◌∷◌, not, true, List, IfOk, IfErr, MatchOption, MatchResult};
ghost use Rattle.std.specs.List.{position};
ghost use Rattle.fsfs_base.specs.Grammar.Relations.{IsFaultAt};
ghost use Rattle.fsfs_base.specs.declared.fields.prop_name.PropNameError.TheVariants.{OutOfMemory};
ghost use Rattle.fsfs_base.specs.Fields.PropNames.{begins_name, continues_name, IsPropName, PropNameText, IsNameRefusal};

use std::alloc::{AllocError, Global};
use std::marker::Model;

const MAX_NAME: usize = 255;

/// The name of a property: a letter, `:` or `_`, and letters, digits, `-`, `.`, `:` and `_` behind it;
/// at most 255 bytes. A contract sees its bytes.
#[derive(Drop)]
pub struct PropName {
    text: String,
}

impl Model for PropName {
    ghost use Rattle.std.specs.Prelude.{List, ℕ};
    ghost use Rattle.std.specs.String.{string_bytes};
    ghost use Rattle.fsfs_base.specs.Fields.PropNames.{IsPropName};

    ghost Value = { List ℕ };

    ghost view = { λ a. string_bytes a.text };

    ghost invariant = { λ a. IsPropName (string_bytes a.text) };
}

/// A text that is no property's name, and the first byte after which none goes on.
#[derive(Clone, Copy)]
pub struct BadPropName {
    pub at: usize,
}

/// A text is no property's name, or memory ran out.
#[derive(Clone, Copy)]
pub enum PropNameError {
    Bad(BadPropName),
    OutOfMemory,
}

impl From<AllocError> for PropNameError {
    ghost use Rattle.std.specs.Prelude.{◌≡◌};
    ghost use Rattle.fsfs_base.specs.declared.fields.prop_name.PropNameError.TheVariants.{OutOfMemory};

    ghost from_gives = { λ _ e. e ≡ OutOfMemory };

    fn from(_error: AllocError) -> PropNameError {
        PropNameError::OutOfMemory
    }
}

fn begins_name(byte: u8) -> bool
    ensures { result ≡ begins_name byte }
{
    matches!(byte, b'A'..=b'Z' | b'a'..=b'z' | b':' | b'_')
}

fn continues_name(byte: u8) -> bool
    ensures { result ≡ continues_name byte }
{
    begins_name(byte) || matches!(byte, b'0'..=b'9' | b'-' | b'.')
}

/// The first byte that doesn't continue a name.
fn other_byte(bytes: &[u8]) -> Option<usize>
    ensures { result ≡ position (λ b. not (continues_name b)) bytes.now }
{
    bytes.iter().position(|byte| !continues_name(*byte))
}

/// The first byte after which no name goes on; the first of all begins one.
fn later_fault(first: u8, rest: &[u8]) -> Option<usize>
    requires { begins_name first ≡ true }
    ensures { MatchOption result (IsPropName (first ∷ rest.now))
        (λ at. IsFaultAt PropNameText (first ∷ rest.now) at × ¬ (IsPropName (first ∷ rest.now))) }
{
    match other_byte(rest) {
        None if rest.len() < MAX_NAME => None,
        None => Some(MAX_NAME),
        Some(other) => Some(other.min(MAX_NAME - 1) + 1),
    }
}

/// The first byte after which no name goes on.
fn fault_at(text: &[u8]) -> Option<usize>
    ensures { MatchOption result (IsPropName text.now) (λ at. IsFaultAt PropNameText text.now at × ¬ (IsPropName text.now)) }
{
    match text {
        [] => Some(0),
        [first, rest @ ..] => {
            if begins_name(*first) {
                later_fault(*first, rest)
            } else {
                Some(0)
            }
        }
    }
}

impl PropName {
    /// The name with this text; or at which byte it is none: 0 if it is empty, 255 if it is too long.
    pub fn parse(alloc: Global, text: &str) -> Result<PropName, PropNameError>
        ensures name { IfOk result (λ name. name ≡ text.now) }
        ensures only { IsPropName text.now → MatchResult result (λ name. name ≡ text.now) (λ e. e ≡ OutOfMemory) }
        ensures refused { IfErr result (IsNameRefusal text.now) }
    {
        match fault_at(text.as_bytes()) {
            Some(at) => Err(PropNameError::Bad(BadPropName { at })),
            None => Ok(PropName {
                text: String::from_str(alloc, text)?,
            }),
        }
    }

    /// Its text.
    pub fn as_str(&self) -> &str
        ensures text { result.now ≡ self.now }
        ensures name { IsPropName result.now }
    {
        self.text.as_str()
    }
}
