// Bytes with escapes, both ways.
use std::alloc::{AllocError, Global};
use thiserror::Error;

/// A text that stands for no bytes.
#[derive(Debug, Drop, Error)]
pub enum EscapeError {
    #[error("a backslash before a character that it has no meaning for")]
    NoEscape,
    #[error("a hexadecimal digit, in lower case, is missing")]
    NoDigit,
    #[error("an escape that does not end")]
    NoEnd,
    #[error(transparent)]
    Memory(#[from(alloc)] AllocError),
}

// What was read of an escape.
#[derive(Clone, Copy)]
enum Escape {
    Nothing,
    Backslash,
    BackslashX,
    FirstDigit(u8),
}

// The value of a hexadecimal digit.
fn digit(byte: u8) -> Result<u8, EscapeError> {
    match byte {
        b'0'..=b'9' => Ok(byte - b'0'),
        b'a'..=b'f' => Ok(byte - b'a' + 10),
        _ => Err(EscapeError::NoDigit),
    }
}

// The byte that a character behind a backslash stands for.
fn escaped(byte: u8) -> Result<u8, EscapeError> {
    match byte {
        b'n' => Ok(b'\n'),
        b't' => Ok(b'\t'),
        b'\\' => Ok(b'\\'),
        _ => Err(EscapeError::NoEscape),
    }
}

// Reads one byte more.
fn read(escape: Escape, byte: u8, bytes: &mut Vec<u8>) -> Result<Escape, EscapeError> {
    match (escape, byte) {
        (Escape::Nothing, b'\\') => return Ok(Escape::Backslash),
        (Escape::Backslash, b'x') => return Ok(Escape::BackslashX),
        (Escape::BackslashX, _) => return Ok(Escape::FirstDigit(digit(byte)?)),
        (Escape::Nothing, _) => bytes.push(byte)?,
        (Escape::Backslash, _) => bytes.push(escaped(byte)?)?,
        (Escape::FirstDigit(first), _) => {
            bytes.push(first.wrapping_mul(16).wrapping_add(digit(byte)?))?;
        }
    }
    Ok(Escape::Nothing)
}

/// The bytes that a text stands for.
pub fn bytes_of(alloc: Global, text: &str) -> Result<Vec<u8>, EscapeError> {
    let mut bytes = Vec::new(alloc);
    let mut escape = Escape::Nothing;
    for byte in text.as_bytes() {
        escape = read(escape, *byte, &mut bytes)?;
    }
    match escape {
        Escape::Nothing => Ok(bytes),
        _ => Err(EscapeError::NoEnd),
    }
}

// Writes a byte as it is written in a text.
fn put_byte(out: &mut String, byte: u8) -> Result<(), AllocError> {
    match byte {
        b'\n' => out.push_str("\\n"),
        b'\t' => out.push_str("\\t"),
        b'\\' => out.push_str("\\\\"),
        b' '..=b'~' => write!(out, "{}", byte as char),
        _ => write!(out, "\\x{byte:02x}"),
    }
}

// Writes bytes, in one line.
pub(crate) fn put_text(out: &mut String, bytes: &[u8]) -> Result<(), AllocError> {
    for byte in bytes {
        put_byte(out, *byte)?;
    }
    Ok(())
}

// Writes bytes as lines.
pub(crate) fn put_lines(
    out: &mut String,
    bytes: &[u8],
    whole: &str,
    cut: &str,
) -> Result<(), AllocError> {
    let mut line = String::new(*out.allocator());
    for byte in bytes {
        if *byte == b'\n' {
            writeln!(out, "{whole}{line}")?;
            line.clear();
        } else {
            put_byte(&mut line, *byte)?;
        }
    }
    if !line.is_empty() {
        writeln!(out, "{cut}{line}")?;
    }
    Ok(())
}
