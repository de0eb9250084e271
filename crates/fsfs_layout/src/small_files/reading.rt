//! What the readers of small files share.
ghost use Rattle.std.specs.Prelude.{◌≡◌};
ghost use Rattle.fsfs_base.specs.Grammar.Relations.{begins};

/// Whether the bytes begin with this one.
pub(crate) fn begins_with(letter: u8, bytes: &[u8]) -> bool
    ensures { result ≡ begins letter bytes.now }
{
    match bytes {
        [] => false,
        [b, ..] => *b == letter,
    }
}
