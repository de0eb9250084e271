//! The word REV.
ghost use Rattle.std.specs.Prelude.{◌≡◌};
ghost use Rattle.std.specs.Char.{is_ascii_digit};
ghost use Rattle.std.specs.List.{list_all};
ghost use Rattle.fsfs_cli.specs.Grammars.{is_revision as is_revision_word, revision_of};

fn are_digits(text: &str) -> bool
    ensures { result ≡ list_all is_ascii_digit text.now }
{
    text.as_bytes().iter().all(|byte| byte.is_ascii_digit())
}

fn is_revision(text: &str) -> bool
    ensures { result ≡ is_revision_word text.now }
{
    !text.is_empty() && text.len() <= 10 && are_digits(text)
}

/// The number of a revision, written as one to ten digits.
pub fn read_revision(text: &str) -> Option<u64>
    ensures { result ≡ revision_of text.now }
{
    if is_revision(text) {
        text.parse().ok()
    } else {
        None
    }
}
