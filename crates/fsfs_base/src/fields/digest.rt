//! Digests as they are written: MD5 in 32, SHA-1 in 40 lower-case hexadecimal digits.
ghost use Rattle.std.specs.Prelude.{◌≡◌, ◌<◌, List, ℕ, length, true, Ok, IfOk, IfSome, IsSomeAnd};
ghost use Rattle.std.specs.List.{list_all};
ghost use Rattle.hex.specs.Hex.{value_at};
ghost use Rattle.fsfs_base.specs.Fields.Digests.{is_lower_digit, IsDigestText};

use std::alloc::{AllocError, Global};

/// A digest of `N` bytes.
#[derive(Clone, Copy, Debug, PartialEq, Eq)]
pub struct HexDigest<const N: usize> {
    pub bytes: [u8; N],
}

// Whether a byte is one of the digits. It tests without a branch: the digits of digests follow no order.
fn is_digit(c: &u8) -> bool
    ensures { result ≡ is_lower_digit c.now }
{
    (b'0' <= *c) & (*c <= b'9') | (b'a' <= *c) & (*c <= b'f')
}

// The number that a digit stands for.
fn value_of(c: u8) -> u8
    requires { is_lower_digit c ≡ true }
    ensures value { (i : ℕ) → value_at c i ≡ Ok result }
    ensures small { result < 16 }
{
    if c < b'a' { c - b'0' } else { c - b'a' + 10 }
}

// Whether all are digits. There is no early exit, so that many are tested together.
fn has_digits(text: &[u8]) -> bool
    ensures { result ≡ list_all is_lower_digit text.now }
{
    let mut all = true;
    'tests: for c in text {
        all &= is_digit(c);
    }
    all
}

fn digits(alloc: Global, bytes: &[u8]) -> Result<Vec<u8>, AllocError>
    ensures { IfOk result (λ text. IsDigestText (length bytes.now) text.items bytes.now) }
{
    Ok(hex::encode(alloc, bytes)?.into_bytes())
}

impl<const N: usize> HexDigest<N> {
    /// The digest that the text is: `2 * N` digits in lower case; none for any other text.
    pub fn read(text: &[u8]) -> Option<HexDigest<N>>
        ensures found { IfSome result (λ digest. IsDigestText N text.now digest.bytes) }
        ensures only { (bytes : List ℕ) → IsDigestText N text.now bytes → IsSomeAnd result (λ digest. digest.bytes ≡ bytes) }
    {
        if text.len() % 2 != 0 || text.len() / 2 != N || !has_digits(text) {
            return None;
        }
        let mut bytes = [0u8; N];
        'bytes: for i in 0..N {
            bytes[i] = value_of(text[2 * i]) * 16 + value_of(text[2 * i + 1]);
        }
        Some(HexDigest { bytes })
    }

    /// Its digits in lower case.
    pub fn write(&self, alloc: Global) -> Result<Vec<u8>, AllocError>
        ensures { IfOk result (λ text. IsDigestText N text.items self.now.bytes) }
    {
        digits(alloc, self.bytes.as_slice())
    }
}
