//! Reading changed-path data.
ghost use Rattle.std.specs.Prelude.{◌≡◌, ℕ, List, Option, Some, IsSome, IfSome, IsSomeAnd, IfOk, IfErr, MatchResult};
ghost use Rattle.fsfs_base.specs.Grammar.Relations.{Begins};
ghost use Rattle.fsfs_base.specs.Paths.{Path, path_text};
ghost use Rattle.fsfs_noderev.specs.Fields.{IsPathText, IsSourceText};
ghost use Rattle.fsfs_noderev.specs.declared.node_rev.CopySource.{CopySource};
ghost use Rattle.fsfs_noderev.specs.Changes.Items.{IsSecondLine, IsItem};
ghost use Rattle.fsfs_noderev.specs.Changes.Texts.{IsAny, HasNewPath, AreChanges, AreRevisionChanges, IsOutOfMemory, IsExact};
ghost use Rattle.fsfs_noderev.specs.declared.changes.item.ChangeItem.{ChangeItem};

use crate::CopySource;
use crate::changes::error::{ChangeError, ChangeFault};
use crate::changes::item::ChangeItem;
use crate::changes::lines::item_text;
use fsfs_base::cuts::cut_at;
use fsfs_base::{FsPath, PathError, RevNum};
use std::alloc::{AllocError, Global};
use std::cmp::Ordering;
use std::collections::BTreeSet;

/// An item, its path as text, and the bytes behind it.
#[derive(Drop)]
struct Next<'a> {
    item: ChangeItem,
    path: &'a [u8],
    rest: &'a [u8],
}

fn path_of(alloc: Global, text: &[u8]) -> Result<Option<FsPath>, AllocError>
    ensures found { IfOk result (λ o. IfSome o (IsPathText text.now)) }
    ensures only { (p : Path) → IsPathText text.now p → IfOk result (λ o. o ≡ Some p) }
{
    match str::from_utf8(text) {
        Err(_) => Ok(None),
        Ok(text) => match FsPath::parse(alloc, text) {
            Ok(path) => Ok(Some(path)),
            Err(PathError::Bad(_)) => Ok(None),
            Err(PathError::OutOfMemory) => Err(AllocError),
        },
    }
}

fn source_of(alloc: Global, text: &[u8]) -> Result<Option<CopySource>, AllocError>
    ensures found { IfOk result (λ o. IfSome o (IsSourceText text.now)) }
    ensures only { (s : CopySource) → IsSourceText text.now s → IfOk result (λ o. o ≡ Some s) }
{
    match cut_at(b' ', text) {
        None => Ok(None),
        Some((front, rest)) => match RevNum::plain(front) {
            None => Ok(None),
            Some(rev) => match path_of(alloc, rest)? {
                None => Ok(None),
                Some(path) => Ok(Some(CopySource { rev, path })),
            },
        },
    }
}

/// The copy source that the second line says, or that there is none; none for any other text.
fn second_line(alloc: Global, text: &[u8]) -> Result<Option<Option<CopySource>>, AllocError>
    ensures found { IfOk result (λ o. IfSome o (IsSecondLine text.now)) }
    ensures only { (s : Option CopySource) → IsSecondLine text.now s → IfOk result (λ o. o ≡ Some s) }
{
    if text.is_empty() {
        return Ok(Some(None));
    }
    match source_of(alloc, text)? {
        None => Ok(None),
        Some(source) => Ok(Some(Some(source))),
    }
}

/// The item that the bytes begin with; none where they begin with none.
fn next_item(alloc: Global, bytes: &[u8]) -> Result<Option<Next<'_>>, AllocError>
    ensures found { IfOk result (λ o. IfSome o (λ n. Begins IsItem bytes.now n.item n.rest.now × (path_text n.item.path ≡ n.path.now))) }
    ensures only { (item : ChangeItem) (rest : List ℕ) → Begins IsItem bytes.now item rest → IfOk result (λ o. IsSome o) }
{
    match item_text(bytes) {
        None => Ok(None),
        Some(text) => match path_of(alloc, text.head.path)? {
            None => Ok(None),
            Some(path) => match second_line(alloc, text.source)? {
                None => Ok(None),
                Some(source) => Ok(Some(Next {
                    item: ChangeItem {
                        id: text.head.id,
                        action: text.head.action,
                        kind: text.head.kind,
                        text_changed: text.head.text_changed,
                        props_changed: text.head.props_changed,
                        path,
                        source,
                    },
                    path: text.head.path,
                    rest: text.rest,
                })),
            },
        },
    }
}

/// The item that the bytes begin with, and the bytes behind it; none where they begin with none.
///
/// An item without a kind is one, too. A path is within the limits of paths, and a delete has no flag that is set.
pub fn read_item(alloc: Global, bytes: &[u8]) -> Result<Option<(ChangeItem, &[u8])>, AllocError>
    ensures found { IfOk result (λ o. IfSome o (λ p. Begins IsItem bytes.now p.0 p.1.now)) }
    ensures only { (item : ChangeItem) (rest : List ℕ) → Begins IsItem bytes.now item rest → IfOk result (λ o. IsSomeAnd o (λ p. (p.0 ≡ item) × (p.1.now ≡ rest))) }
{
    match next_item(alloc, bytes)? {
        None => Ok(None),
        Some(
            Next {
                item,
                path: _,
                rest,
            },
        ) => Ok(Some((item, rest))),
    }
}

/// The items of a transaction's `changes` file, in the order of the file: several may have one path.
///
/// The first item that isn't in its form is refused, where it begins.
pub fn read_changes(alloc: Global, bytes: &[u8]) -> Result<Vec<ChangeItem>, ChangeError>
    ensures found { IfOk result (λ v. AreChanges bytes.now v.items) }
    ensures only { (items : List ChangeItem) → AreChanges bytes.now items → MatchResult result (λ v. v.items ≡ items) IsOutOfMemory }
    ensures fault { IfErr result (IsExact IsAny bytes.now) }
{
    let mut items = Vec::new(alloc);
    let mut rest = bytes;
    'data: while !rest.is_empty() {
        match next_item(alloc, rest)? {
            None => {
                return Err(ChangeError::Fault(ChangeFault {
                    at: bytes.len() - rest.len(),
                }));
            }
            Some(
                Next {
                    item,
                    path: _,
                    rest: after,
                },
            ) => {
                items.push(item)?;
                rest = after;
            }
        }
    }
    Ok(items)
}

// A revision's items whose paths rise, each by its text above the one before it; none where one doesn't. So a set of the paths
// is wanted only by data in another order.
fn read_rising(alloc: Global, bytes: &[u8]) -> Result<Option<Vec<ChangeItem>>, ChangeError>
    ensures found { IfOk result (λ o. IfSome o (λ v. AreRevisionChanges bytes.now v.items)) }
    ensures only { (items : List ChangeItem) → AreRevisionChanges bytes.now items → MatchResult result (λ o. IfSome o (λ v. v.items ≡ items)) IsOutOfMemory }
    ensures fault { IfErr result (IsExact HasNewPath bytes.now) }
{
    let mut items = Vec::new(alloc);
    let mut last: &[u8] = b"";
    let mut rest = bytes;
    'data: while !rest.is_empty() {
        match next_item(alloc, rest)? {
            None => {
                return Err(ChangeError::Fault(ChangeFault {
                    at: bytes.len() - rest.len(),
                }));
            }
            Some(
                Next {
                    item,
                    path,
                    rest: after,
                },
            ) => {
                match last.cmp(path) {
                    Ordering::Less => {}
                    Ordering::Equal | Ordering::Greater => return Ok(None),
                }
                items.push(item)?;
                last = path;
                rest = after;
            }
        }
    }
    Ok(Some(items))
}

// A revision's items in any order, by a set of their paths.
fn read_in_any_order(alloc: Global, bytes: &[u8]) -> Result<Vec<ChangeItem>, ChangeError>
    ensures found { IfOk result (λ v. AreRevisionChanges bytes.now v.items) }
    ensures only { (items : List ChangeItem) → AreRevisionChanges bytes.now items → MatchResult result (λ v. v.items ≡ items) IsOutOfMemory }
    ensures fault { IfErr result (IsExact HasNewPath bytes.now) }
{
    let mut items = Vec::new(alloc);
    let mut paths = BTreeSet::new(alloc);
    let mut rest = bytes;
    'data: while !rest.is_empty() {
        match next_item(alloc, rest)? {
            None => {
                return Err(ChangeError::Fault(ChangeFault {
                    at: bytes.len() - rest.len(),
                }));
            }
            Some(
                Next {
                    item,
                    path,
                    rest: after,
                },
            ) => {
                if !paths.insert(path)? {
                    return Err(ChangeError::Fault(ChangeFault {
                        at: bytes.len() - rest.len(),
                    }));
                }
                items.push(item)?;
                rest = after;
            }
        }
    }
    Ok(items)
}

/// The items of a revision's changed-path data, in the order of the data, which stands between the changes offset and the
/// trailer of the revision's bytes: each path comes once.
///
/// The first item that isn't in its form, or whose path an earlier one has, is refused, where it begins.
pub fn read_revision_changes(alloc: Global, bytes: &[u8]) -> Result<Vec<ChangeItem>, ChangeError>
    ensures found { IfOk result (λ v. AreRevisionChanges bytes.now v.items) }
    ensures only { (items : List ChangeItem) → AreRevisionChanges bytes.now items → MatchResult result (λ v. v.items ≡ items) IsOutOfMemory }
    ensures fault { IfErr result (IsExact HasNewPath bytes.now) }
{
    match read_rising(alloc, bytes)? {
        Some(items) => Ok(items),
        None => read_in_any_order(alloc, bytes),
    }
}
