// Numbers in base 36 within the names of files and folders.
ghost use Rattle.std.specs.Prelude.{◌≡◌, ◌≤◌, ◌<◌, ◌+◌, ◌++◌, length};
ghost use Rattle.fsfs_base.specs.Grammar.Base36.{glyph, last_digits};

use crate::name::Name;

fn digit(d: u8) -> char
    requires { d < 36 }
    ensures digit { result ≡ glyph d }
    ensures ascii { result < 128 }
{
    if d < 10 {
        char::from(b'0' + d)
    } else {
        char::from(b'a' + (d - 10))
    }
}

/// Puts the last digits of a number in base 36 at the end. It takes no memory, as no name does.
#[tactic(auto, unfolding(crate::specs::Grammar::Base36::last_digits))]
pub fn push_base36(name: &mut Name, digits: usize, number: u128)
    requires { length name.old + digits ≤ 128 }
    ensures text { name.new ≡ name.old ++ last_digits digits number }
    ensures short { length name.new ≤ length name.old + digits }
{
    if digits == 0 {
        return;
    }
    if number / 36 == 0 {
        name.push(digit((number % 36) as u8));
    } else {
        push_base36(name, digits - 1, number / 36);
        name.push(digit((number % 36) as u8));
    }
}
