//! Readers of a text that is given and of bytes that are counted.
//!
//! A reader takes the bytes and gives its value and the bytes behind it, or how many bytes are left where it stops.
ghost use Rattle.std.specs.Prelude.{◌≡◌};
ghost use Rattle.fsfs_base.specs.Grammar.Reading.{Gives, text_at, bytes_at};

/// The bytes behind the given text; or how many are left at the first byte that differs from it.
#[tactic(auto, unfolding(crate::specs::Grammar::Reading::text_at))]
pub fn text<'a>(given: &[u8], bytes: &'a [u8]) -> Result<&'a [u8], usize>
    ensures { Gives (λ rest. (tt, rest.now)) result (text_at given.now bytes.now) }
{
    match given {
        [] => Ok(bytes),
        [c, given @ ..] => match bytes {
            [] => Err(0),
            [b, after @ ..] => {
                if *b == *c {
                    text(given, after)
                } else {
                    Err(bytes.len())
                }
            }
        },
    }
}

/// So many bytes, and the bytes behind them; `Err(0)` where there are fewer.
pub fn bytes_of(count: u64, bytes: &[u8]) -> Result<(&[u8], &[u8]), usize>
    ensures { Gives (λ p. (p.0.now, p.1.now)) result (bytes_at count bytes.now) }
{
    if (bytes.len() as u64) < count {
        return Err(0);
    }
    Ok(bytes.split_at(count as usize))
}
