// Lists of numbers in the texts of the example programs: which calls fail, and which changes a crash leaves.
use std::alloc::{AllocError, Global};
use thiserror::Error;

/// A text that is no such list.
#[derive(Debug, Drop, Error)]
pub enum ListError {
    #[error("a word that is no number")]
    NoNumber,
    #[error("no such change")]
    NoChange,
    #[error(transparent)]
    Memory(#[from(alloc)] AllocError),
}

/// Numbers with this character between each two.
pub fn numbers_of(alloc: Global, text: &str, between: char) -> Result<Vec<u64>, ListError> {
    let mut numbers = Vec::new(alloc);
    for word in text.split(between) {
        let Ok(number) = word.parse::<u64>() else {
            return Err(ListError::NoNumber);
        };
        numbers.push(number)?;
    }
    Ok(numbers)
}

// Where the change of this number stands behind so many others; the first is 1.
fn place_of(number: u64, before: usize) -> Option<usize> {
    let at = usize::try_from(number.checked_sub(1)?).ok()?;
    before.checked_add(at)
}

/// Which changes a crash leaves, of so many behind so many others: `none`, `all`, or those with these numbers. The first is 1.
pub fn picks_of(
    alloc: Global,
    text: &str,
    between: char,
    before: usize,
    most: usize,
) -> Result<Vec<bool>, ListError> {
    let mut picks = vec![in alloc; text == "all"; before.saturating_add(most)]?;
    if text == "all" || text == "none" {
        return Ok(picks);
    }
    for number in numbers_of(alloc, text, between)? {
        let Some(at) = place_of(number, before) else {
            return Err(ListError::NoChange);
        };
        match picks.get_mut(at) {
            Some(pick) => *pick = true,
            None => return Err(ListError::NoChange),
        }
    }
    Ok(picks)
}
