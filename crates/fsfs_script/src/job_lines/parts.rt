//! What stands for a number, a base, a path or a name.
ghost use Rattle.std.specs.Prelude.{◌≡◌, not, IfOk};
ghost use Rattle.std.specs.List.{list_all};
ghost use Rattle.fsfs_base.specs.PathTexts.{is_control as is_control_byte};
ghost use Rattle.fsfs_script.specs.JobLines.Judging.{Gives, GivesOrMemory};
ghost use Rattle.fsfs_script.specs.JobLines.Parts.{base_of, path_of, name_of, is_author};
ghost use Rattle.fsfs_script.specs.JobLines.Words.{number_at, base_at, path_at, name_at, author_at, length_at};

use crate::job_lines::job::Base;
use crate::job_lines::refusal::{LineError, Refusal, Why};
use crate::job_lines::texts::Author;
use crate::job_lines::words::as_text;
use fsfs_base::decimals::plain_decimal;
use fsfs_base::{FsPath, PathError, PropName, PropNameError};
use std::alloc::{AllocError, Global};

const MAX_AUTHOR: usize = 255;

/// A decimal number.
#[tactic(auto, unfolding(crate::specs::JobLines::Words::number_at))]
pub(crate) fn number(word: &[u8]) -> Result<u64, Refusal>
    ensures { Gives (λ n. n) result (number_at word.now) }
{
    as_text(word)?;
    match plain_decimal(u64::MAX, word) {
        None => Err(Refusal::Bad(Why::Number)),
        Some(number) => Ok(number),
    }
}

/// A number of bytes, up to a limit.
#[tactic(auto, unfolding(crate::specs::JobLines::Words::length_at))]
pub(crate) fn length(limit: u64, too_long: Refusal, word: &[u8]) -> Result<u64, Refusal>
    ensures { Gives (λ n. n) result (length_at limit too_long word.now) }
{
    let number = number(word)?;
    if number <= limit {
        Ok(number)
    } else {
        Err(too_long)
    }
}

fn base_named(word: &[u8]) -> Option<Base>
    ensures { result ≡ base_of word.now }
{
    if word == b"head".as_slice() {
        return Some(Base::Youngest);
    }
    match plain_decimal(u64::MAX, word) {
        None => None,
        Some(number) => Some(Base::Number(number)),
    }
}

/// `head`, or a decimal number.
#[tactic(auto, unfolding(crate::specs::JobLines::Words::base_at))]
pub(crate) fn base(word: &[u8]) -> Result<Base, Refusal>
    ensures { Gives (λ b. b) result (base_at word.now) }
{
    as_text(word)?;
    match base_named(word) {
        None => Err(Refusal::Bad(Why::Number)),
        Some(base) => Ok(base),
    }
}

fn path_of_text(alloc: Global, text: &str) -> Result<Option<FsPath>, AllocError>
    ensures { IfOk result (λ path. path ≡ path_of text.now) }
{
    match FsPath::parse(alloc, text) {
        Ok(path) => Ok(Some(path)),
        Err(PathError::Bad(_)) => Ok(None),
        Err(PathError::OutOfMemory) => Err(AllocError),
    }
}

/// A path.
#[tactic(auto, unfolding(crate::specs::JobLines::Words::path_at))]
pub(crate) fn path(alloc: Global, text: &[u8]) -> Result<FsPath, LineError>
    ensures { GivesOrMemory (λ p. p) result (path_at text.now) }
{
    let text = as_text(text)?;
    match path_of_text(alloc, text)? {
        None => Err(LineError::Refused(Refusal::Bad(Why::Path))),
        Some(path) => Ok(path),
    }
}

fn name_of_text(alloc: Global, text: &str) -> Result<Option<PropName>, AllocError>
    ensures { IfOk result (λ name. name ≡ name_of text.now) }
{
    match PropName::parse(alloc, text) {
        Ok(name) => {
            // A name's own text keeps the rule of names.
            let _text = name.as_str();
            Ok(Some(name))
        }
        Err(PropNameError::Bad(_)) => Ok(None),
        Err(PropNameError::OutOfMemory) => Err(AllocError),
    }
}

/// The name of a property.
#[tactic(auto, unfolding(crate::specs::JobLines::Words::name_at))]
pub(crate) fn name(alloc: Global, word: &[u8]) -> Result<PropName, LineError>
    ensures { GivesOrMemory (λ n. n) result (name_at word.now) }
{
    let text = as_text(word)?;
    match name_of_text(alloc, text)? {
        None => Err(LineError::Refused(Refusal::Bad(Why::Name))),
        Some(name) => Ok(name),
    }
}

fn is_control(byte: u8) -> bool
    ensures { result ≡ is_control_byte byte }
{
    byte < 32 || byte == 127
}

fn is_author(text: &[u8]) -> bool
    ensures { result ≡ is_author text.now }
{
    !text.is_empty() && text.len() <= MAX_AUTHOR && has_no_control(text)
}

fn has_no_control(text: &[u8]) -> bool
    ensures { result ≡ list_all (λ b. not (is_control_byte b)) text.now }
{
    text.iter().all(|byte| !is_control(*byte))
}

/// The name of an author: 1 to 255 bytes without control characters. It may have spaces.
#[tactic(auto, unfolding(crate::specs::JobLines::Words::author_at))]
pub(crate) fn author(alloc: Global, text: &[u8]) -> Result<Author, LineError>
    ensures { GivesOrMemory (λ a. a) result (author_at text.now) }
{
    let name = as_text(text)?;
    if !is_author(text) {
        return Err(LineError::Refused(Refusal::Bad(Why::Name)));
    }
    Ok(Author::new(String::from_str(alloc, name)?))
}
