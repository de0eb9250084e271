//! A note is made once more.
ghost use Rattle.std.specs.Prelude.{◌≡◌};

use fsfs_base::{Note, Says};

// What a note says.
#[derive(Drop)]
struct Said<'a, T> {
    note: &'a Note<T>,
}

impl<T> Says<T> for Said<'_, T> {
    ghost says = { λ x. x.note.now.value };
}

/// A note that says the same.
pub fn said_again<T>(note: &Note<T>) -> Note<T>
    ensures { result.value ≡ note.now.value }
{
    Note::of(&Said { note })
}
