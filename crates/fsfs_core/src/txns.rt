//! Transactions: their trees and marks, and what committing them adds.
ghost use Rattle.std.specs.Prelude.{◌≡◌, ◌+◌, ◌<◌, ◌≤◌, ◌++◌, ◌∷◌, [], length, slice_get, List, ℕ, OnOk, OnErr, IfOk, IfSome, MatchOption, MatchResult, Some, None, IsTrue, ◌↔◌};
ghost use Rattle.std.specs.FinMap as finmap;
ghost use Rattle.fsfs_base.specs.Fields.RevNums.{last_rev};
ghost use Rattle.fsfs_base.specs.Paths.{Path};
ghost use Rattle.fsfs_model.specs.Flat.Landing.{land, NoClash, IsFirstClash};
ghost use Rattle.fsfs_tree.specs.Revisions.{Revision as Stands, tree_of};
ghost use Rattle.fsfs_tree.specs.Dated.{IsDated, last_of};
ghost use Rattle.fsfs_model.specs.Flat.Transactions.{IsNext};
ghost use Rattle.fsfs_machine.specs.Machine.{tree_in, entry_of};
ghost use Rattle.fsfs_core.specs.Commits.{GivesEdit};

use fsfs_base::{FsPath, Pairs, RevNum, read_date};
use fsfs_machine::Txn;
use fsfs_model::{Edit, Mark, flat_apply, flat_clash, flat_fold, flat_land, flat_mark};
use fsfs_tree::{History, Revision, Tree};
use std::alloc::{AllocError, Global};

/// The tree of a revision that there is.
pub fn tree_at(history: &History, rev: RevNum) -> Option<&Tree>
    ensures { MatchOption result (length history.now ≤ rev) (λ tree. (rev < length history.now) × (finmap.get tree.now ≡ tree_of history.now rev)) }
{
    match history.get(rev) {
        Some(revision) => Some(&revision.tree),
        None => None,
    }
}

/// A copy of the tree of a revision, empty where there is none.
pub fn base_tree(alloc: Global, history: &History, rev: RevNum) -> Result<Tree, AllocError>
    ensures { IfOk result (λ tree. tree ≡ tree_in (slice_get history.now rev)) }
{
    match history.get(rev) {
        Some(revision) => Ok(revision.tree.clone()?),
        None => Ok(Tree::new(alloc)),
    }
}

// Whether a date among the properties has the stored form.
#[tactic(auto, using(crate::proofs::Calling::dated_by))]
fn is_dated(properties: &Pairs) -> bool
    ensures { IsTrue result ↔ IsDated properties.now }
{
    match properties.get(b"svn:date") {
        None => true,
        Some(value) => read_date(value).is_some(),
    }
}

/// The transaction's tree after an edit, and the edit's mark; none where the edit isn't accepted.
pub fn edit_of(
    alloc: Global,
    edit: &Edit,
    history: &History,
    own: &Tree,
) -> Result<Option<(Tree, Mark)>, AllocError>
    ensures { IfOk result (λ o. GivesEdit edit.now history.now own.now o) }
{
    match flat_apply(alloc, edit, history, own)? {
        None => Ok(None),
        Some(tree) => Ok(Some((tree, flat_mark(edit, history, own)?))),
    }
}

/// The transaction's tree landed on a later head as revision `n`, or the path where the two clash first.
pub fn land_on(
    alloc: Global,
    txn: &Txn,
    base: &Tree,
    head: &Tree,
    n: RevNum,
) -> Result<Result<Tree, FsPath>, AllocError>
    ensures { IfOk result (λ landed. MatchResult landed
        (λ tree. NoClash txn.now.base (finmap.get base.now) (finmap.get head.now) (finmap.get txn.now.tree) txn.now.marks
        × ((q : Path) → finmap.get tree q ≡ land (finmap.get base.now) (finmap.get head.now) (finmap.get txn.now.tree) txn.now.marks n q))
        (λ path. IsFirstClash txn.now.base (finmap.get base.now) (finmap.get head.now) (finmap.get txn.now.tree) txn.now.marks path)) }
{
    let marks = txn.marks.as_slice();
    match flat_clash(alloc, txn.base, base, head, &txn.tree, marks)? {
        Some(path) => Ok(Err(path)),
        None => Ok(Ok(flat_land(alloc, base, head, &txn.tree, marks, n)?)),
    }
}

// The last revision of a history, and the one that follows; none where there is none, or no number is left.
fn ends_of(history: &History) -> Option<(RevNum, RevNum)>
    ensures { MatchOption result (0 < length history.now → length history.now ≤ last_rev → ⊥) (λ ends. (ends.0 ≡ last_of history.now) × (ends.1 ≡ length history.now)) }
{
    let next = RevNum::new(history.count() as u64)?;
    let last = next.previous()?;
    Some((last, next))
}

// The same on the last of the revisions, as the one that follows.
fn next_tree(alloc: Global, history: &History, txn: &Txn) -> Result<Option<Tree>, AllocError>
    ensures { IfOk result (λ o. MatchOption o
        ((p : ℕ) (properties : List (List ℕ × List ℕ)) (next : Stands) → IsNext history.now (entry_of p txn.now properties) next → ⊥)
        (λ tree. (txn.now.base < length history.now) × (length history.now ≤ last_rev)
        × NoClash txn.now.base (tree_of history.now txn.now.base) (tree_of history.now (last_of history.now)) (finmap.get txn.now.tree) txn.now.marks
        × ((q : Path) → finmap.get tree q ≡ land (tree_of history.now txn.now.base) (tree_of history.now (last_of history.now)) (finmap.get txn.now.tree) txn.now.marks (length history.now) q))) }
{
    let Some((last, next)) = ends_of(history) else {
        return Ok(None);
    };
    match (tree_at(history, txn.base), tree_at(history, last)) {
        (Some(base), Some(head)) => match land_on(alloc, txn, base, head, next)? {
            Ok(tree) => Ok(Some(tree)),
            Err(_) => Ok(None),
        },
        _ => Ok(None),
    }
}

/// The revision that committing the transaction with these properties adds, where it can be added.
pub fn next_of(
    alloc: Global,
    history: &History,
    txn: &Txn,
    properties: &Pairs,
) -> Result<Option<Revision>, AllocError>
    ensures { (p : ℕ) → IfOk result (λ o. MatchOption o
        ((next : Stands) → IsDated properties.now → IsNext history.now (entry_of p txn.now properties.now) next → ⊥)
        (λ next. IsDated properties.now × IsNext history.now (entry_of p txn.now properties.now) next)) }
{
    if !is_dated(properties) {
        return Ok(None);
    }
    match next_tree(alloc, history, txn)? {
        None => Ok(None),
        Some(tree) => Ok(Some(Revision {
            tree,
            changes: flat_fold(alloc, txn.marks.as_slice())?,
            properties: properties.clone()?,
        })),
    }
}
