//! The first line of a representation.
ghost use Rattle.fsfs_base.specs.Grammar.Reading.{Gives};
ghost use Rattle.fsfs_revision.specs.Rep.Headers.{IsHeaderOf, base_line_at, delta_line_at};

use fsfs_base::RevNum;
use fsfs_base::decimals::decimal;
use fsfs_base::pieces::text;

/// The line that a representation begins with.
#[derive(Clone, Copy, Debug)]
pub(crate) enum Header {
    Plain,
    Delta,
    Other,
}

/// A delta's line is no longer: `DELTA`, three numbers with a space before each, and a newline.
pub(crate) const HEADER_LEN: usize = 64;

// The bytes behind a delta's base; or how many are left where its line does not go on.
fn base_line(bytes: &[u8]) -> Result<&[u8], usize>
    ensures { Gives (λ rest. (tt, rest.now)) result (base_line_at bytes.now) }
{
    let rest = text(b" ", bytes)?;
    let rest = match RevNum::read_ended(b' ', rest) {
        Ok((_rev, rest)) => rest,
        Err(left) => return Err(left),
    };
    let (_offset, rest) = decimal(u64::MAX, b' ', rest)?;
    let (_length, rest) = decimal(u64::MAX, b'\n', rest)?;
    Ok(rest)
}

// The bytes behind a delta's line.
#[tactic(auto, unfolding(crate::specs::Rep::Headers::delta_line_at))]
fn delta_line(bytes: &[u8]) -> Result<&[u8], usize>
    ensures { Gives (λ rest. (tt, rest.now)) result (delta_line_at bytes.now) }
{
    let rest = text(b"DELTA", bytes)?;
    if rest.first() == Some(&b'\n') {
        text(b"\n", rest)
    } else {
        base_line(rest)
    }
}

/// What stands at the beginning of these bytes.
pub(crate) fn header_of(bytes: &[u8]) -> Header
    ensures { IsHeaderOf bytes.now result }
{
    match text(b"PLAIN\n", bytes) {
        Ok(_) => Header::Plain,
        Err(_) => match delta_line(bytes) {
            Ok(_) => Header::Delta,
            Err(_) => Header::Other,
        },
    }
}
