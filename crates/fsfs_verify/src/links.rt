//! Which directories of a revision name its node-revisions.
ghost use Rattle.std.specs.Prelude.{◌≡◌, ◌==◌, ℕ, true, false, Some, None, is_none, IfOk, OnOk, map, if◌then◌else◌};
ghost use Rattle.std.specs.String.{string_bytes};
ghost use Rattle.fsfs_verify.specs.LinksUp.{link_at, named_by, alone_by, LeadsUp};

use fsfs_base::FsPath;
use std::alloc::{AllocError, Global};
use std::collections::BTreeMap;

// Where a node-revision is named first: the place of the directory, and the name. Whether it is named again.
#[derive(Drop)]
struct Link {
    dir: u64,
    name: String,
    again: bool,
}

/// Where the node-revisions of a revision are named, by their places. The root is named nowhere.
#[derive(Drop)]
pub(crate) struct Links {
    by_place: BTreeMap<u64, Link>,
}

impl Links {
    pub(crate) fn new(alloc: Global) -> Links
        ensures { (place : ℕ) → link_at result place ≡ None }
    {
        Links {
            by_place: BTreeMap::new(alloc),
        }
    }

    /// A directory names the node-revision at this place. Answers whether it is named for the first time.
    pub(crate) fn put(&mut self, place: u64, dir: u64, name: String) -> Result<bool, AllocError>
        ensures first { IfOk result (λ first. first ≡ is_none (link_at self.old place)) }
        ensures put { OnOk result ((at : ℕ) → link_at self.new at ≡ (if at == place then Some (named_by dir (string_bytes name) (link_at self.old place)) else link_at self.old at)) }
    {
        match self.by_place.get_mut(&place) {
            Some(link) => {
                link.again = true;
                Ok(false)
            }
            None => {
                let again = false;
                self.by_place.insert(place, Link { dir, name, again })?;
                Ok(true)
            }
        }
    }

    // The place of the directory that names what stands at this place by this name, where nothing else names it.
    fn dir_alone(&self, place: u64, name: &str) -> Option<u64>
        ensures { result ≡ alone_by name.now (link_at self.now place) }
    {
        match self.by_place.get(&place) {
            None => None,
            Some(link) => {
                if link.again {
                    return None;
                }
                if link.name.as_str() == name {
                    Some(link.dir)
                } else {
                    None
                }
            }
        }
    }

    // Whether these names lead up from this place to the root, each of them the only one by which something is named.
    fn leads_up(&self, root: u64, place: u64, names: &[String]) -> bool
        ensures yes { result ≡ true → LeadsUp self.now root place (map string_bytes names.now) }
        ensures other { result ≡ false → LeadsUp self.now root place (map string_bytes names.now) → ⊥ }
    {
        let mut at = place;
        let mut left = names;
        'up: while let [above @ .., last] = left {
            let Some(dir) = self.dir_alone(at, last.as_str()) else {
                return false;
            };
            at = dir;
            left = above;
        }
        at == root
    }

    /// Whether the node-revision at this place stands at this path of the revision whose root stands at that place, and
    /// nowhere else.
    pub(crate) fn stands_once(&self, root: u64, place: u64, path: &FsPath) -> bool
        ensures yes { result ≡ true → LeadsUp self.now root place path.now }
        ensures other { result ≡ false → LeadsUp self.now root place path.now → ⊥ }
    {
        self.leads_up(root, place, path.names())
    }
}
