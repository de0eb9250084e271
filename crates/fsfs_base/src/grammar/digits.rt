//! Digits of bases up to 36, `0` to `9` and then `a` to `z`.
ghost use Rattle.std.specs.Prelude.{◌≡◌, ◌<◌};
ghost use Rattle.fsfs_base.specs.Grammar.Numeral.{digit};

/// What a digit stands for; 36 for another byte.
pub fn digit_of(c: u8) -> u64
    ensures { result ≡ digit c }
{
    match c {
        b'0'..=b'9' => (c - b'0') as u64,
        b'a'..=b'z' => (c - b'a') as u64 + 10,
        _ => 36,
    }
}

/// The digit that stands for this number.
pub(crate) fn digit_char(d: u8) -> u8
    requires { d < 36 }
    ensures { digit result ≡ d }
{
    if d < 10 { b'0' + d } else { b'a' + (d - 10) }
}
