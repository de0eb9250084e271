//! The word N.
ghost use Rattle.std.specs.Prelude.{◌≡◌};
ghost use Rattle.fsfs_cli.specs.Grammars.{shard_of};

use fsfs_base::read_dec;

/// The number of revisions in a shard: a decimal number from 1 to 100,000.
pub fn read_shard(text: &str) -> Option<u32>
    ensures { result ≡ shard_of text.now }
{
    match read_dec(text.as_bytes()) {
        Some(number) if 1 <= number && number <= 100_000 => Some(number as u32),
        _ => None,
    }
}
