//! Revision numbers.
ghost use Rattle.std.specs.Prelude.{◌≡◌, ◌+◌, ◌<◌, ◌≤◌, OnOk, MatchOption};
ghost use Rattle.fsfs_base.specs.Grammar.Reading.{Gives};
ghost use Rattle.fsfs_base.specs.Grammar.Relations.{Appends};
ghost use Rattle.fsfs_base.specs.Fields.RevNums.{last_rev, IsRev, IsRevEnded, rev_at, rev_ended_at};

use crate::grammar::decimals::{decimal, plain_decimal, put_dec, put_decimal};
use std::alloc::AllocError;
use std::fmt;
use std::fmt::Display;
use std::marker::Model;

/// The last number that a revision may have. (This project's profile.)
const LAST: u32 = 2147483647;

/// A revision's number, at most 2,147,483,647. A contract sees the number.
#[derive(Clone, Copy, Debug, PartialEq, Eq, PartialOrd, Ord)]
pub struct RevNum {
    number: u32,
}

impl Model for RevNum {
    ghost use Rattle.std.specs.Prelude.{ℕ, ◌≤◌};
    ghost use Rattle.fsfs_base.specs.Fields.RevNums.{last_rev};

    ghost Value = { ℕ };

    ghost view = { λ a. a.number };

    ghost invariant = { λ a. a.number ≤ last_rev };

    ghost inverse = { λ n. record { number = n } };
}

/// Every number of 16 bits is a revision's.
impl From<u16> for RevNum {
    ghost from_gives = { λ number rev. rev ≡ number };

    fn from(number: u16) -> RevNum {
        RevNum {
            number: number as u32,
        }
    }
}

impl Display for RevNum {
    ghost use Rattle.std.specs.Prelude.{Some, decimal};

    ghost output = { λ rev. Some (decimal rev) };

    fn fmt<W: fmt::Write>(&self, f: &mut fmt::Formatter<W>) -> fmt::Result {
        write!(f, "{}", self.number)
    }
}

impl RevNum {
    /// The first revision.
    pub const ZERO: RevNum = RevNum { number: 0 };

    /// The last number that a revision may have.
    pub const MAX: RevNum = RevNum { number: LAST };

    /// The revision of this number; none above the last.
    pub fn new(number: u64) -> Option<RevNum>
        ensures { MatchOption result (last_rev < number) (λ rev. rev ≡ number) }
    {
        if number <= LAST as u64 {
            Some(RevNum {
                number: number as u32,
            })
        } else {
            None
        }
    }

    /// The number.
    pub fn get(self) -> u32
        ensures same { result ≡ self }
        ensures limit { self ≤ last_rev }
    {
        self.number
    }

    /// The next revision; none behind the last.
    pub fn next(self) -> Option<RevNum>
        ensures { MatchOption result (self ≡ last_rev) (λ rev. rev ≡ self + 1) }
    {
        if self.number < LAST {
            Some(RevNum {
                number: self.number + 1,
            })
        } else {
            None
        }
    }

    /// The revision before it; none before the first.
    pub fn previous(self) -> Option<RevNum>
        ensures { MatchOption result (self ≡ 0) (λ rev. self ≡ rev + 1) }
    {
        if self.number > 0 {
            Some(RevNum {
                number: self.number - 1,
            })
        } else {
            None
        }
    }

    /// The revision whose decimal text this is, as a part of a longer reading; none for any other text.
    pub fn plain(text: &[u8]) -> Option<RevNum>
        ensures { result ≡ rev_at text.now }
    {
        let number = plain_decimal(LAST as u64, text)?;
        Some(RevNum {
            number: number as u32,
        })
    }

    /// The revision whose decimal text ends with this byte, and the bytes behind that;
    /// or how many bytes are left at the first byte after which no revision goes on.
    pub fn read_ended(end: u8, bytes: &[u8]) -> Result<(RevNum, &[u8]), usize>
        ensures { Gives (λ p. (p.0, p.1.now)) result (rev_ended_at end bytes.now) }
    {
        let (number, rest) = decimal(LAST as u64, end, bytes)?;
        Ok((
            RevNum {
                number: number as u32,
            },
            rest,
        ))
    }

    /// Writes its decimal text at the end.
    pub fn put(self, out: &mut Vec<u8>) -> Result<(), AllocError>
        ensures { OnOk result (Appends IsRev out.old.items out.new.items self) }
    {
        put_dec(out, self.number as u64)
    }

    /// Writes its decimal text and the byte that ends it at the end.
    pub fn put_ended(self, out: &mut Vec<u8>, end: u8) -> Result<(), AllocError>
        ensures { OnOk result (Appends (IsRevEnded end) out.old.items out.new.items self) }
    {
        put_decimal(out, self.number as u64, end)
    }
}
