//! The entries of a directory by their names.
ghost use Rattle.std.specs.Prelude.{◌≡◌, ◌≤◌, ◌+◌, ℕ, true, cond, [], length, Some, None, IfOk, option_map};
ghost use Rattle.std.specs.Arc.{arc_value};
ghost use Rattle.fsfs_base.specs.Paths.{PathName};
ghost use Rattle.fsfs_revision.specs.Shows.Reading.{named};
ghost use Rattle.fsfs_dag.specs.Views.{entry_value, entry_values};
ghost use Rattle.fsfs_dag.specs.Listing.Lists.{IsPut};
ghost use Rattle.fsfs_dag.specs.Listing.Targets.{entry_of, target_entry};
ghost use Rattle.fsfs_dag.specs.Listing.Trees.{values, is_sorted};

use crate::DirEntry;
use crate::listing::order::rises;
use crate::listing::target::Target;
use crate::listing::tree::{Tree, tree_over};
use std::alloc::{AllocError, Global};
use std::sync::Arc;

/// The entries of a directory by their names. A change makes a new listing, which shares with the old one all that was not
/// changed: it costs some of the directory's logarithm, and so does a look.
#[derive(Drop)]
pub struct Listing {
    root: Arc<Tree>,
    most: usize,
    ghost sorted: { is_sorted (arc_value root) ≡ true },
    ghost counted: { length (values (arc_value root)) ≤ most },
}

// How many entries there are, at most, once one was changed: whether there was one of its name, and whether there is one.
fn counted(most: usize, had: bool, has: bool) -> Result<usize, AllocError>
    ensures { IfOk result (λ n. (old new : ℕ) → old ≤ most → new + cond had 1 0 ≤ old + cond has 1 0 → new ≤ n) }
{
    if had == has {
        return Ok(most);
    }
    if had {
        return Ok(most.saturating_sub(1));
    }
    match most.checked_add(1) {
        Some(more) => Ok(more),
        None => Err(AllocError),
    }
}

impl Listing {
    ghost use Rattle.fsfs_dag.specs.Listing.Views.{listed};

    /// No entry.
    pub fn empty(alloc: Global) -> Result<Listing, AllocError>
        ensures { IfOk result (λ l. listed l ≡ []) }
    {
        let root = Arc::new(alloc, Tree::empty(alloc))?;
        Ok(Listing { root, most: 0 })
    }

    // The entries of a list, put one by one, the last first.
    fn of_each(alloc: Global, entries: Vec<DirEntry>) -> Result<Listing, AllocError>
        ensures { IfOk result (λ l. (y : PathName) → named y (listed l) ≡ named y (entry_values entries.items)) }
    {
        let mut left = entries;
        let mut listing = Listing::empty(alloc)?;
        while let Some(entry) = left.pop() {
            let target = Target {
                kind: entry.kind,
                id: entry.id,
            };
            listing = listing.with(alloc, entry.name.as_str(), target)?;
        }
        Ok(listing)
    }

    /// The entries of a list; of those of one name the first. Where they stand in byte order of their names, as a directory's
    /// do, the listing is made at once.
    pub fn of(alloc: Global, entries: Vec<DirEntry>) -> Result<Listing, AllocError>
        ensures { IfOk result (λ l. (y : PathName) → named y (listed l) ≡ named y (entry_values entries.items)) }
    {
        if !rises(&entries) {
            return Listing::of_each(alloc, entries);
        }
        let most = entries.len();
        let tree = tree_over(alloc, &entries)?;
        let root = Arc::new(alloc, tree)?;
        Ok(Listing { root, most })
    }

    /// The same entries. Nothing is copied.
    pub fn shared(&self) -> Result<Listing, AllocError>
        ensures { IfOk result (λ l. listed l ≡ listed self.now) }
    {
        let root = self.root.clone()?;
        Ok(Listing {
            root,
            most: self.most,
        })
    }

    /// The entry of a name.
    pub fn get(&self, name: &str) -> Option<&DirEntry>
        ensures { option_map (λ e. entry_value e.now) result ≡ named name.now (listed self.now) }
    {
        self.root.find(name)
    }

    /// A number that is no less than that of the entries.
    pub fn most(&self) -> usize
        ensures { length (listed self.now) ≤ result }
    {
        self.most
    }

    /// The entries, with this behind a name.
    pub fn with(&self, alloc: Global, name: &str, target: Target) -> Result<Listing, AllocError>
        ensures { IfOk result (λ l. IsPut (listed self.now) name.now (Some (entry_of name.now target)) (listed l)) }
    {
        self.changed(alloc, name, Some(target))
    }

    /// The entries, with nothing behind a name.
    pub fn without(&self, alloc: Global, name: &str) -> Result<Listing, AllocError>
        ensures { IfOk result (λ l. IsPut (listed self.now) name.now None (listed l)) }
    {
        self.changed(alloc, name, None)
    }

    /// A list of all entries.
    pub fn to_vec(&self, alloc: Global) -> Result<Vec<DirEntry>, AllocError>
        ensures { IfOk result (λ v. entry_values v.items ≡ listed self.now) }
    {
        let mut all = Vec::new(alloc);
        self.root.push_all(alloc, &mut all)?;
        Ok(all)
    }

    // With this behind a name, or with nothing.
    fn changed(
        &self,
        alloc: Global,
        name: &str,
        target: Option<Target>,
    ) -> Result<Listing, AllocError>
        ensures { IfOk result (λ l. IsPut (listed self.now) name.now (target_entry name.now target) (listed l)) }
    {
        let had = self.root.find(name).is_some();
        let most = counted(self.most, had, target.is_some())?;
        let root = self.root.changed(alloc, name, target)?;
        let root = Arc::new(alloc, root)?;
        Ok(Listing { root, most })
    }
}
