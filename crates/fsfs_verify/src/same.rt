//! Whether two values stand at one place, and whether two copy roots are one.
ghost use Rattle.std.specs.Prelude.{◌≡◌, ◌==◌, ◌&&◌, true, false};
ghost use Rattle.fsfs_revision.specs.Shows.Chains.{copy_root_of};
ghost use Rattle.fsfs_verify.specs.Same.{same_rev, same_unique, same_rep, same_contents};

use fsfs_base::{FsPath, RevNum, TxnName};
use fsfs_noderev::{Contents, NodeRev, Rep, Uniquifier};
use fsfs_revision::own_rev;

fn same_txn(a: &TxnName, b: &TxnName) -> bool
    ensures { result ≡ (a.now.base == b.now.base && a.now.number.number == b.now.number.number) }
{
    a.base.get() == b.base.get() && a.number.number == b.number.number
}

fn same_rev(a: Option<RevNum>, b: Option<RevNum>) -> bool
    ensures { result ≡ same_rev a b }
{
    match a {
        None => b.is_none(),
        Some(a) => match b {
            None => false,
            Some(b) => a.get() == b.get(),
        },
    }
}

fn same_unique(a: &Option<Uniquifier>, b: &Option<Uniquifier>) -> bool
    ensures { result ≡ same_unique a.now b.now }
{
    match a {
        None => b.is_none(),
        Some(a) => match b {
            None => false,
            Some(b) => {
                a.sha1.bytes.as_slice() == b.sha1.bytes.as_slice()
                    && same_txn(&a.txn, &b.txn)
                    && a.number.number == b.number.number
            }
        },
    }
}

fn same_rep(a: &Rep, b: &Rep) -> bool
    ensures { result ≡ same_rep a.now b.now }
{
    same_rev(a.rev, b.rev)
        && a.offset == b.offset
        && a.length == b.length
        && a.size == b.size
        && a.md5.bytes.as_slice() == b.md5.bytes.as_slice()
        && same_unique(&a.unique, &b.unique)
}

/// Whether two values stand at one place: both in no file, or both in one representation.
pub(crate) fn same_contents(a: &Option<Contents>, b: &Option<Contents>) -> bool
    ensures { result ≡ same_contents a.now b.now }
{
    match a {
        None => b.is_none(),
        Some(Contents::Own) => match b {
            Some(Contents::Own) => true,
            _ => false,
        },
        Some(Contents::At(a)) => match b {
            Some(Contents::At(b)) => same_rep(a, b),
            _ => false,
        },
    }
}

/// The revision of the copy by which a node-revision, or something above it, came to where it stands.
pub(crate) fn root_rev(node: &NodeRev) -> RevNum
    ensures { result ≡ (copy_root_of node.now).0 }
{
    match &node.copy_root {
        None => own_rev(node),
        Some(root) => root.rev.unwrap_or(RevNum::ZERO),
    }
}

/// The path of that copy.
pub(crate) fn root_path(node: &NodeRev) -> &FsPath
    ensures { result.now ≡ (copy_root_of node.now).1 }
{
    match &node.copy_root {
        None => &node.created_path,
        Some(root) => &root.path,
    }
}

/// Whether two node-revisions have one copy root.
pub(crate) fn same_root(a: &NodeRev, b: &NodeRev) -> bool
    ensures same { result ≡ true → copy_root_of a.now ≡ copy_root_of b.now }
    ensures other { result ≡ false → copy_root_of a.now ≡ copy_root_of b.now → ⊥ }
{
    root_rev(a).get() == root_rev(b).get() && *root_path(a) == *root_path(b)
}
