// The words and lines of the texts of the example programs.
use std::alloc::{AllocError, Global};

/// A word, and what is left of the line.
pub fn cut(line: &str) -> (&str, &str) {
    line.split_once(' ').unwrap_or((line, ""))
}

/// The lines of a text that say something: those that are not empty, and don't begin with `#`.
pub fn lines_of(alloc: Global, text: &str) -> Result<Vec<&str>, AllocError> {
    let lines: Vec<&str> = text
        .lines()
        .filter(|line| !line.is_empty() && !line.starts_with('#'))
        .collect(alloc)?;
    Ok(lines)
}

/// An example of a text.
#[derive(Clone, Copy)]
pub struct Example<'a> {
    /// The lines that each example of its part begins with.
    pub first: &'a [&'a str],
    pub headline: &'a str,
    /// Its own lines.
    pub lines: &'a [&'a str],
}

// Adds the example of these lines, of which the first is its headline.
fn add<'a>(
    examples: &mut Vec<Example<'a>>,
    first: &'a [&'a str],
    lines: &'a [&'a str],
) -> Result<(), AllocError> {
    if let Some((headline, lines)) = lines.split_first() {
        examples.push(Example {
            first,
            headline: *headline,
            lines,
        })?;
    }
    Ok(())
}

// Adds the examples of a part.
fn add_part<'a>(examples: &mut Vec<Example<'a>>, lines: &'a [&'a str]) -> Result<(), AllocError> {
    let start = lines
        .iter()
        .position(|line| line.starts_with("== "))
        .unwrap_or(lines.len());
    let first = lines.get(..start).unwrap_or(&[]);
    let mut begun = start;
    for (at, line) in lines.iter().enumerate() {
        if at > begun && line.starts_with("== ") {
            add(examples, first, lines.get(begun..at).unwrap_or(&[]))?;
            begun = at;
        }
    }
    add(examples, first, lines.get(begun..).unwrap_or(&[]))
}

/// The examples of a text that has these lines. A line `== NAME` is the headline of one. The lines before the first headline are those
/// that each begins with; a line `=== NAME` begins another part of the text, which has such lines of its own.
pub fn examples_of<'a>(
    alloc: Global,
    lines: &'a [&'a str],
) -> Result<Vec<Example<'a>>, AllocError> {
    let mut examples = Vec::new(alloc);
    let mut begun = 0;
    for (at, line) in lines.iter().enumerate() {
        if line.starts_with("=== ") {
            add_part(&mut examples, lines.get(begun..at).unwrap_or(&[]))?;
            begun = at.saturating_add(1);
        }
    }
    add_part(&mut examples, lines.get(begun..).unwrap_or(&[]))?;
    Ok(examples)
}
