//! Entries in a tree, by the byte order of their names.
ghost use Rattle.std.specs.Prelude.{◌≡◌, ◌++◌, [], true, IfOk, OnOk, option_map};
ghost use Rattle.std.specs.Arc.{arc_value};
ghost use Rattle.fsfs_revision.specs.Shows.Reading.{named};
ghost use Rattle.fsfs_dag.specs.Views.{entry_value, entry_values};
ghost use Rattle.fsfs_dag.specs.Listing.Lists.{NamesRise};
ghost use Rattle.fsfs_dag.specs.Listing.Trees.{values, is_sorted, sorted_sides, HasEntries, IsTreeOf, IsChangedTree};

use crate::DirEntry;
use crate::directory::entry_named;
use crate::listing::leaf::{below, changed_leaf, copies, from_on, push_copies};
use crate::listing::order::{is_below, rises};
use crate::listing::target::Target;
use std::alloc::{AllocError, Global};
use std::sync::Arc;

/// Entries in byte order of their names. A changed tree shares with the one before it all that was not changed.
#[derive(Drop)]
pub(crate) enum Tree {
    Leaf(Vec<DirEntry>),
    /// The entries whose names are below the one between, and the others, and how many there are.
    Branch(Arc<Tree>, Vec<u8>, Arc<Tree>, usize),
}

/// A leaf with more entries is split.
const MOST_IN_LEAF: usize = 8;

// A tree of entries, of which few are more than a leaf has.
fn tree_of(alloc: Global, entries: Vec<DirEntry>) -> Result<Tree, AllocError>
    ensures { IfOk result (λ t. HasEntries (entry_values entries.items) t) }
{
    let count = entries.len();
    if count <= MOST_IN_LEAF {
        return Ok(Tree::Leaf(entries));
    }
    let middle = Vec::from_slice(alloc, entries[count / 2].name.as_bytes())?;
    let all = copies(alloc, &entries)?;
    let low = Arc::new(alloc, Tree::Leaf(below(all, &middle)))?;
    let high = Arc::new(alloc, Tree::Leaf(from_on(entries, &middle)))?;
    Ok(Tree::Branch(low, middle, high, count))
}

/// A tree of copies of entries that stand in byte order of their names, made at once.
pub(crate) fn tree_over(alloc: Global, entries: &[DirEntry]) -> Result<Tree, AllocError>
    requires { NamesRise (entry_values entries.now) }
    ensures { IfOk result (λ t. IsTreeOf (entry_values entries.now) t) }
{
    let count = entries.len();
    if count <= MOST_IN_LEAF {
        let all = copies(alloc, entries)?;
        return Ok(Tree::Leaf(all));
    }
    let (low, high) = entries.split_at(count / 2);
    let [first, _rest @ ..] = high else {
        let all = copies(alloc, entries)?;
        return Ok(Tree::Leaf(all));
    };
    let middle = Vec::from_slice(alloc, first.name.as_bytes())?;
    let below = tree_over(alloc, low)?;
    let above = tree_over(alloc, high)?;
    let low = Arc::new(alloc, below)?;
    let high = Arc::new(alloc, above)?;
    Ok(Tree::Branch(low, middle, high, count))
}

// The same entries in a tree that is made anew, where they are in order.
fn level(alloc: Global, tree: Tree) -> Result<Tree, AllocError>
    requires { is_sorted tree ≡ true }
    ensures { IfOk result (λ t. IsTreeOf (values tree) t) }
{
    let mut all = Vec::new(alloc);
    tree.push_all(alloc, &mut all)?;
    if !rises(&all) {
        return Ok(tree);
    }
    let made = tree_over(alloc, &all)?;
    Ok(made)
}

// Whether one of two sides has much more than the other.
fn leans(low: usize, high: usize) -> bool {
    low.max(high) / 4 > low.min(high).saturating_add(MOST_IN_LEAF)
}

// A branch of two sides. Where it leans it is made anew: so names that come in their order, as they mostly do, make no
// tree deeper than a few logarithms, and what is made anew is in proportion to what came since.
fn branch(
    alloc: Global,
    low: Arc<Tree>,
    middle: Vec<u8>,
    high: Arc<Tree>,
) -> Result<Tree, AllocError>
    requires { sorted_sides middle.items (arc_value low) (arc_value high) ≡ true }
    ensures { IfOk result (λ t. IsTreeOf (values (arc_value low) ++ values (arc_value high)) t) }
{
    let lows = low.count();
    let highs = high.count();
    let tree = Tree::Branch(low, middle, high, lows.saturating_add(highs));
    if leans(lows, highs) {
        let made = level(alloc, tree)?;
        return Ok(made);
    }
    Ok(tree)
}

impl Tree {
    // How many entries it has.
    fn count(&self) -> usize {
        match self {
            Tree::Leaf(entries) => entries.len(),
            Tree::Branch(_, _, _, count) => *count,
        }
    }

    /// A tree without an entry.
    pub(crate) fn empty(alloc: Global) -> Tree
        ensures { HasEntries [] result }
    {
        Tree::Leaf(Vec::new(alloc))
    }

    /// The entry of a name.
    pub(crate) fn find(&self, name: &str) -> Option<&DirEntry>
        requires sorted { is_sorted self.now ≡ true }
        ensures { option_map (λ e. entry_value e.now) result ≡ named name.now (values self.now) }
    {
        match self {
            Tree::Leaf(entries) => entry_named(entries, name),
            Tree::Branch(low, middle, high, _) => {
                if is_below(name, middle) {
                    low.find(name)
                } else {
                    high.find(name)
                }
            }
        }
    }

    /// With this behind a name, or with nothing.
    pub(crate) fn changed(
        &self,
        alloc: Global,
        name: &str,
        target: Option<Target>,
    ) -> Result<Tree, AllocError>
        requires sorted { is_sorted self.now ≡ true }
        ensures { IfOk result (λ t. IsChangedTree self.now t name.now target) }
    {
        match self {
            Tree::Leaf(entries) => {
                let left = changed_leaf(alloc, entries, name, target)?;
                tree_of(alloc, left)
            }
            Tree::Branch(low, middle, high, _) => {
                let between = Vec::from_slice(alloc, middle)?;
                if is_below(name, middle) {
                    let low = low.changed(alloc, name, target)?;
                    let low = Arc::new(alloc, low)?;
                    let high = high.clone()?;
                    let made = branch(alloc, low, between, high)?;
                    Ok(made)
                } else {
                    let high = high.changed(alloc, name, target)?;
                    let high = Arc::new(alloc, high)?;
                    let low = low.clone()?;
                    let made = branch(alloc, low, between, high)?;
                    Ok(made)
                }
            }
        }
    }

    /// Puts copies of all entries behind those that are there.
    pub(crate) fn push_all(&self, alloc: Global, all: &mut Vec<DirEntry>) -> Result<(), AllocError>
        ensures { OnOk result (entry_values all.new.items ≡ entry_values all.old.items ++ values self.now) }
    {
        match self {
            Tree::Leaf(entries) => push_copies(alloc, all, entries),
            Tree::Branch(low, _, high, _) => {
                low.push_all(alloc, all)?;
                high.push_all(alloc, all)
            }
        }
    }
}
