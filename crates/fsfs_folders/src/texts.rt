// Tests of paths' texts.
ghost use Rattle.std.specs.Prelude.{◌≡◌, nat_eq};
ghost use Rattle.std.specs.List.{starts_with, ends_with};
ghost use Rattle.fsfs_folders.specs.System.Paths.{has_slash as slash};
ghost use Rattle.fsfs_folders.specs.Told.{is_apart as apart, is_in_bench as in_bench, is_inner_folder as inner};

use fsfs_base::Name;

/// A file is written first under its name with this ending.
pub const BESIDE: &str = ".beside";

fn begins(text: &str, start: &str) -> bool
    ensures { result ≡ starts_with nat_eq text.now start.now }
{
    text.starts_with(start)
}

fn ends(text: &str, end: &str) -> bool
    ensures { result ≡ ends_with nat_eq text.now end.now }
{
    text.ends_with(end)
}

/// Whether a text has a slash.
pub fn has_slash(text: &str) -> bool
    ensures { result ≡ slash text.now }
{
    text.contains('/')
}

/// Whether the folders of benches begin so, and what stands in them; prototype revision files too.
#[tactic(auto, unfolding(crate::specs::Told::is_in_bench))]
pub fn is_in_bench(text: &str) -> bool
    ensures { result ≡ in_bench text.now }
{
    begins(text, "db/transactions/")
        || begins(text, "db/txn-protorevs/")
        || begins(text, "db/pack-")
        || begins(text, "db/copy.bench")
}

/// Whether a name is none of the repository's: files are written under it first, or it is in a bench.
#[tactic(auto, unfolding(crate::specs::Told::is_apart))]
pub fn is_apart(name: &Name) -> bool
    ensures { result ≡ apart name.now }
{
    ends(name.as_str(), BESIDE) || is_in_bench(name.as_str())
}

/// Whether a folder is one of the repository's that isn't the whole of it.
pub fn is_inner_folder(name: &Name) -> bool
    ensures { result ≡ inner name.now }
{
    !name.as_str().is_empty() && !is_in_bench(name.as_str())
}
