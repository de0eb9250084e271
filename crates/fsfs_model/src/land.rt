//! Landing a transaction on a head.
ghost use Rattle.std.specs.Prelude.{◌≡◌, ◌||◌, is_some, IfOk, OnOk};
ghost use Rattle.std.specs.BTreeSet as set;
ghost use Rattle.std.specs.Option.{option_copied};
ghost use Rattle.std.specs.FinMap as map;
ghost use Rattle.fsfs_base.specs.Paths.{Path, path_cmp};
ghost use Rattle.fsfs_model.specs.Flat.Landing.{numbered, landed_at, land};

use crate::flat::mark::{effects_at, outer_marks};
use crate::{Effects, Mark};
use fsfs_base::{FsPath, RevNum};
use fsfs_tree::{Node, Tree};
use std::alloc::{AllocError, Global};
use std::collections::BTreeSet;

// The numbers of a node that comes into revision n.
fn number(n: RevNum, effects: Effects, is_own: bool, head: Option<&Node>, node: &mut Node)
    ensures { node.new ≡ numbered n effects is_own (option_copied head.entry) node.old }
{
    match head {
        Some(head) if !is_own => {
            node.added = head.added;
            node.props_changed = if effects.props_changed {
                n
            } else {
                head.props_changed
            };
            node.last_changed = if effects.touched {
                n
            } else {
                head.last_changed
            };
        }
        _ => {
            node.added = n;
            node.props_changed = n;
            node.last_changed = n;
        }
    }
}

// What stands at a path after the landing.
fn land_node(
    n: RevNum,
    effects: Effects,
    base: Option<&Node>,
    head: Option<&Node>,
    own: Option<&Node>,
) -> Result<Option<Node>, AllocError>
    ensures { IfOk result (λ node. node ≡ landed_at n effects (option_copied base.entry) (option_copied head.entry) (option_copied own.entry)) }
{
    let is_held = base.is_some() && !effects.deleted;
    let chosen = if is_held && !effects.rewritten {
        head
    } else if base.is_some() || own.is_some() {
        own
    } else {
        head
    };
    match chosen {
        None => Ok(None),
        Some(node) => {
            let mut node = node.clone()?;
            number(n, effects, own.is_some() && !is_held, head, &mut node);
            Ok(Some(node))
        }
    }
}

// The paths of three trees.
pub(crate) fn all_paths(
    alloc: Global,
    base: &Tree,
    head: &Tree,
    own: &Tree,
) -> Result<BTreeSet<FsPath>, AllocError>
    ensures { IfOk result (λ all. (q : Path) → set.contains path_cmp all q ≡ (is_some (map.get base.now q) || is_some (map.get head.now q) || is_some (map.get own.now q))) }
{
    let mut all = BTreeSet::new(alloc);
    base.add_paths(&mut all)?;
    head.add_paths(&mut all)?;
    own.add_paths(&mut all)?;
    Ok(all)
}

/// The transaction's tree `own` with these marks, landed on the head as revision `n`.
pub fn flat_land(
    alloc: Global,
    base: &Tree,
    head: &Tree,
    own: &Tree,
    marks: &[Mark],
    n: RevNum,
) -> Result<Tree, AllocError>
    ensures { IfOk result (λ tree. (p : Path) → map.get tree p ≡ land (map.get base.now) (map.get head.now) (map.get own.now) marks.now n p) }
{
    let all = all_paths(alloc, base, head, own)?;
    let outer = outer_marks(alloc, marks)?;
    let mut tree = Tree::new(alloc);
    for path in &all {
        let effects = effects_at(&outer, path);
        let node = land_node(n, effects, base.get(path), head.get(path), own.get(path))?;
        if let Some(node) = node {
            tree.insert(path.clone()?, node)?;
        }
    }
    Ok(tree)
}
