//! The history of a path.
ghost use Rattle.std.specs.Prelude.{◌≡◌, IfOk, IsSome};
ghost use Rattle.std.specs.Option.{option_copied};
ghost use Rattle.std.specs.FinMap as map;
ghost use Rattle.fsfs_tree.specs.Revisions.{tree_of};
ghost use Rattle.fsfs_tree.specs.PathHistories.{path_history, leads_to};

use fsfs_base::{FsPath, RevNum};
use fsfs_tree::{History, Node};
use std::alloc::{AllocError, Global};

// What stands at a path of a revision.
pub(crate) fn node_at<'a>(history: &'a History, rev: RevNum, path: &FsPath) -> Option<&'a Node>
    ensures { option_copied result ≡ tree_of history.now rev path.now }
{
    match history.get(rev) {
        None => None,
        Some(revision) => revision.tree.get(path),
    }
}

// Where a point leads.
fn next_point(path: &FsPath, node: &Node) -> Result<Option<(RevNum, FsPath)>, AllocError>
    ensures { IfOk result (λ next. next ≡ leads_to path.now node.now) }
{
    match node.last_changed.previous() {
        Some(before) if node.added <= before => Ok(Some((before, path.clone()?))),
        _ => node.source.clone(),
    }
}

/// The history of a path from a revision on, newest first: the revisions in which it, or anything below it, was changed, and
/// the path that it then had. A path that isn't in that revision's tree has none.
pub fn flat_history(
    alloc: Global,
    history: &History,
    rev: RevNum,
    path: &FsPath,
) -> Result<Vec<(RevNum, FsPath)>, AllocError>
    ensures { IfOk result (λ points. points.items ≡ path_history (tree_of history.now) rev path.now) }
{
    let mut points = Vec::new(alloc);
    let mut left = rev.get() as u64 + 1;
    let mut rev = rev;
    let mut path = path.clone()?;
    while left > 0 {
        left -= 1;
        match node_at(history, rev, &path) {
            None => left = 0,
            Some(node) => {
                points.push((node.last_changed, path.clone()?))?;
                match next_point(&path, node)? {
                    None => left = 0,
                    Some((from, source)) => {
                        rev = from;
                        path = source;
                    }
                }
            }
        }
    }
    Ok(points)
}
