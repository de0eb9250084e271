//! A text cut in two at a byte.
ghost use Rattle.std.specs.Prelude.{◌≡◌, ◌+◌, ◌≤◌, length, option_map};
ghost use Rattle.std.specs.Simd.Lanes.{chunk};
ghost use Rattle.fsfs_base.specs.Grammar.Cuts.{before, cut};

use std::simd::prelude::*;

/// How many bytes are looked at together.
const LANES: usize = 16;

/// How many of the 16 bytes at a place stand before the first of this value.
#[inline(always)]
fn before_in_lanes(byte: u8, text: &[u8], at: usize) -> usize
    requires { at + 16 ≤ length text.now }
    ensures { result ≡ before byte (chunk at 16 text.now) }
{
    let hits = u8x16::from_slice(&text[at..])
        .simd_eq(u8x16::splat(byte))
        .to_bitmask();
    if hits == 0 {
        LANES
    } else {
        hits.trailing_zeros() as usize
    }
}

/// How many bytes of a text of at least 16 stand before the first of this value.
fn before_in_long(byte: u8, text: &[u8]) -> usize
    requires { 16 ≤ length text.now }
    ensures { result ≡ before byte text.now }
{
    let mut at = 0;
    'places: while LANES < text.len() - at {
        let run = before_in_lanes(byte, text, at);
        if run < LANES {
            return at + run;
        }
        at += LANES;
    }
    // The last block may overlap the one before it.
    let last = text.len() - LANES;
    last + before_in_lanes(byte, text, last)
}

/// How many bytes of a short text stand before the first of this value.
fn before_in_short(byte: u8, text: &[u8]) -> usize
    ensures { result ≡ before byte text.now }
{
    let mut at = 0;
    'bytes: while at < text.len() && text[at] != byte {
        at += 1;
    }
    at
}

/// How many bytes stand before the first of this value; all, where there is none.
fn bytes_before(byte: u8, text: &[u8]) -> usize
    ensures { result ≡ before byte text.now }
{
    if text.len() < LANES {
        before_in_short(byte, text)
    } else {
        before_in_long(byte, text)
    }
}

/// What stands before the first byte `separator`, and behind it; none where the text lacks it.
pub fn cut_at(separator: u8, text: &[u8]) -> Option<(&[u8], &[u8])>
    ensures { option_map (λ p. (p.0.now, p.1.now)) result ≡ cut separator text.now }
{
    let at = bytes_before(separator, text);
    if at >= text.len() {
        return None;
    }
    Some((&text[..at], &text[at + 1..]))
}
