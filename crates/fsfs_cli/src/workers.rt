//! The word N of `-j N`.
ghost use Rattle.std.specs.Prelude.{◌≡◌};
ghost use Rattle.fsfs_cli.specs.Grammars.{workers_of};

/// How many workers do the jobs of a script: one or two.
pub fn read_workers(text: &str) -> Option<u32>
    ensures { result ≡ workers_of text.now }
{
    if text == "1" {
        Some(1)
    } else if text == "2" {
        Some(2)
    } else {
        None
    }
}
