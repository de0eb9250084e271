//! The words of a line, from the left.
ghost use Rattle.std.specs.Prelude.{◌≡◌, IfOk, option_map};
ghost use Rattle.fsfs_script.specs.JobLines.Judging.{Gives};
ghost use Rattle.fsfs_script.specs.JobLines.Words.{split, text_of, checked, end_at};

use crate::job_lines::refusal::{Refusal, Why};
use fsfs_base::cuts::cut_at;

/// The first word of a text, and what stands behind the space that ends it.
pub(crate) fn split_word(text: &[u8]) -> (&[u8], Option<&[u8]>)
    ensures word { result.0.now ≡ (split text.now).0 }
    ensures rest { option_map (λ t. t.now) result.1 ≡ (split text.now).1 }
{
    match cut_at(b' ', text) {
        None => (text, None),
        Some((word, rest)) => (word, Some(rest)),
    }
}

/// What stands behind a word; nothing where the line ends with it.
pub(crate) fn text_behind(rest: Option<&[u8]>) -> &[u8]
    ensures { result.now ≡ text_of (option_map (λ t. t.now) rest.entry) }
{
    match rest {
        None => b"".as_slice(),
        Some(text) => text,
    }
}

/// A word as text.
#[tactic(auto, using(crate::proofs::NameReadings::checked_text, crate::proofs::NameReadings::checked_other))]
pub(crate) fn as_text(word: &[u8]) -> Result<&str, Refusal>
    ensures given { Gives (λ _. tt) result (checked word.now) }
    ensures same { IfOk result (λ text. text.now ≡ word.now) }
{
    match str::from_utf8(word) {
        Ok(text) => Ok(text),
        Err(_) => Err(Refusal::Bad(Why::NotUtf8)),
    }
}

/// The line ends here; else the word that follows is refused.
pub(crate) fn end(rest: Option<&[u8]>) -> Result<(), Refusal>
    ensures { Gives (λ _. tt) result (end_at (option_map (λ t. t.now) rest.entry)) }
{
    match rest {
        None => Ok(()),
        Some(text) => {
            let (word, _) = split_word(text);
            as_text(word)?;
            Err(Refusal::Bad(Why::Word))
        }
    }
}
