//! Whether representations are the same.
ghost use Rattle.std.specs.Prelude.{◌≡◌, ◌==◌, ◌&&◌};
ghost use Rattle.fsfs_merge.specs.Clash.Same.{same_rev, same_unique, same_rep, same_contents};

use fsfs_base::{RevNum, TxnName};
use fsfs_noderev::{Contents, Rep, Uniquifier};

fn same_txn(a: &TxnName, b: &TxnName) -> bool
    ensures { result ≡ (a.now.base == b.now.base && a.now.number.number == b.now.number.number) }
{
    a.base.get() == b.base.get() && a.number.number == b.number.number
}

fn same_rev(a: Option<RevNum>, b: Option<RevNum>) -> bool
    ensures { result ≡ same_rev a b }
{
    match a {
        None => b.is_none(),
        Some(a) => match b {
            None => false,
            Some(b) => a.get() == b.get(),
        },
    }
}

fn same_unique(a: &Option<Uniquifier>, b: &Option<Uniquifier>) -> bool
    ensures { result ≡ same_unique a.now b.now }
{
    match a {
        None => b.is_none(),
        Some(a) => match b {
            None => false,
            Some(b) => {
                a.sha1.bytes.as_slice() == b.sha1.bytes.as_slice()
                    && same_txn(&a.txn, &b.txn)
                    && a.number.number == b.number.number
            }
        },
    }
}

fn same_rep(a: &Rep, b: &Rep) -> bool
    ensures { result ≡ same_rep a.now b.now }
{
    same_rev(a.rev, b.rev)
        && a.offset == b.offset
        && a.length == b.length
        && a.size == b.size
        && a.md5.bytes.as_slice() == b.md5.bytes.as_slice()
        && same_unique(&a.unique, &b.unique)
}

/// Whether two values stand at one place: both in no file, both in a file of the transaction's own, or both in one
/// representation.
pub(crate) fn same_contents(a: &Option<Contents>, b: &Option<Contents>) -> bool
    ensures { result ≡ same_contents a.now b.now }
{
    match a {
        None => b.is_none(),
        Some(Contents::Own) => match b {
            Some(Contents::Own) => true,
            _ => false,
        },
        Some(Contents::At(a)) => match b {
            Some(Contents::At(b)) => same_rep(a, b),
            _ => false,
        },
    }
}
