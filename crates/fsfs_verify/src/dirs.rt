//! The directories of a revision's tree that its changed paths lead to.
ghost use Rattle.std.specs.Prelude.{◌≡◌, ◌≤◌, ◌++◌, ◌∷◌, [], ℕ, IsSome, Ok, Err, option_map};
ghost use Rattle.fsfs_base.specs.Paths.{PathName};
ghost use Rattle.fsfs_base.specs.declared.kind.Kind.TheVariants.{Dir};
ghost use Rattle.fsfs_revision.specs.Damage.Causes.{HasCause};
ghost use Rattle.fsfs_tree.specs.Answers.{last_name as last};
ghost use Rattle.fsfs_revision.specs.Told.{RevisionBytes, Knows, Keeps};
ghost use Rattle.fsfs_revision.specs.Shows.Reading.{EntriesOf, MetAt, RootOf, StandsAt};
ghost use Rattle.fsfs_dag.specs.Views.{entry_value, home_of};
ghost use Rattle.fsfs_verify.specs.Finds.{Finds};
ghost use Rattle.fsfs_verify.specs.ReadDirs.{list_of, entry_in, AreDirs, IsDirPut, IsDirNamed, IsReached, IsNamedAt};

use fsfs_base::{FsPath, Kind};
use fsfs_dag::{DirEntry, PlacedNode, child_of, entries};
use fsfs_history::EntriesByName;
use fsfs_noderev::NodeId;
use fsfs_revision::{Book, ReadError};
use std::alloc::Global;
use std::collections::BTreeMap;

/// The directories of a tree that were read, by their paths. Each is read once.
#[derive(Drop)]
pub(crate) struct ReadDirs {
    root: NodeId,
    dirs: BTreeMap<FsPath, EntriesByName>,
}

// The last name of a path; `/` has none.
fn last_name(path: &FsPath) -> &str
    ensures { result.now ≡ last path.now }
{
    match path.names() {
        [.., last] => last,
        [] => "",
    }
}

impl ReadDirs {
    /// The root alone.
    pub(crate) fn of<B: Book>(
        alloc: Global,
        book: &mut B,
        root: &PlacedNode,
    ) -> Result<ReadDirs, ReadError>
        requires { root.now.node.kind ≡ Dir }
        ensures told { (look : RevisionBytes) (rev : ℕ) → Knows (B.told book.old).revs rev look → RootOf look rev (Ok root.now.node) → Finds (AreDirs look rev) (λ w. EntriesOf look root.now.node (Err w)) result }
        ensures kept { Keeps (B.told book.old) (B.told book.new) }
        ensures cause { HasCause (B.faults book.old) (B.faults book.new) result }
    {
        let mut found = ReadDirs {
            root: root.node.id,
            dirs: BTreeMap::new(alloc),
        };
        found.put(alloc, book, FsPath::root(alloc), root)?;
        Ok(found)
    }

    // Puts the entries of a directory at its path.
    fn put<B: Book>(
        &mut self,
        alloc: Global,
        book: &mut B,
        path: FsPath,
        dir: &PlacedNode,
    ) -> Result<(), ReadError>
        requires { dir.now.node.kind ≡ Dir }
        ensures told { (look : RevisionBytes) (rev : ℕ) → Knows (B.told book.old).revs rev look → (home_of dir.now.node).rev ≤ rev
            → Finds (λ _. IsDirPut look dir.now.node path self.old self.new) (λ w. EntriesOf look dir.now.node (Err w)) result }
        ensures kept { Keeps (B.told book.old) (B.told book.new) }
        ensures cause { HasCause (B.faults book.old) (B.faults book.new) result }
    {
        let all = entries(alloc, book, dir)?;
        let by_name = EntriesByName::of(alloc, all)?;
        match self.dirs.insert(path, by_name) {
            Ok(_) => Ok(()),
            Err(_) => Err(ReadError::OutOfMemory),
        }
    }

    // Puts the entries of what stands at a path, if it is a directory. Answers whether it is one.
    fn put_found<B: Book>(
        &mut self,
        alloc: Global,
        book: &mut B,
        path: FsPath,
        found: &PlacedNode,
    ) -> Result<bool, ReadError>
        ensures told { (look : RevisionBytes) (rev : ℕ) → Knows (B.told book.old).revs rev look → AreDirs look rev self.old → StandsAt look rev path found.now.node
            → Finds (λ read. IsReached look rev path self.new read) (λ w. (name : PathName) → MetAt look rev (path ++ name ∷ []) (Err w)) result }
        ensures kept { Keeps (B.told book.old) (B.told book.new) }
        ensures cause { HasCause (B.faults book.old) (B.faults book.new) result }
    {
        match found.node.kind {
            Kind::File => Ok(false),
            Kind::Dir => {
                self.put(alloc, book, path, found)?;
                Ok(true)
            }
        }
    }

    // The entry of a name in a directory that was read.
    fn named(&self, dir: &FsPath, name: &str) -> Option<&DirEntry>
        ensures { option_map (λ e. entry_value e.now) result ≡ entry_in (list_of self.now dir.now) name.now }
    {
        match self.dirs.get(dir) {
            None => None,
            Some(entries) => entries.get(name),
        }
    }

    // The directory of a name in one that was read, if the name is that of a directory.
    fn dir_named<B: Book>(
        &self,
        alloc: Global,
        book: &mut B,
        dir: &FsPath,
        name: &str,
    ) -> Result<Option<PlacedNode>, ReadError>
        ensures told { (look : RevisionBytes) (rev : ℕ) → Knows (B.told book.old).revs rev look → AreDirs look rev self.now → IsSome (list_of self.now dir.now)
            → Finds (λ child. IsDirNamed look rev (dir.now ++ name.now ∷ []) (option_map (λ v. v.node) child)) (λ w. (other : PathName) → MetAt look rev ((dir.now ++ name.now ∷ []) ++ other ∷ []) (Err w)) result }
        ensures kept { Keeps (B.told book.old) (B.told book.new) }
        ensures cause { HasCause (B.faults book.old) (B.faults book.new) result }
    {
        match self.named(dir, name) {
            None => Ok(None),
            Some(entry) => match entry.kind {
                Kind::File => Ok(None),
                Kind::Dir => {
                    let child = child_of(alloc, book, entry)?;
                    Ok(Some(child))
                }
            },
        }
    }

    // Reads the directory of a name in one that was read, unless it was read, if it is one. Answers whether it was read.
    fn step<B: Book>(
        &mut self,
        alloc: Global,
        book: &mut B,
        dir: &FsPath,
        name: &str,
        path: &FsPath,
    ) -> Result<bool, ReadError>
        requires { path.now ≡ dir.now ++ name.now ∷ [] }
        ensures told { (look : RevisionBytes) (rev : ℕ) → Knows (B.told book.old).revs rev look → AreDirs look rev self.old → IsSome (list_of self.old dir.now)
            → Finds (λ read. IsReached look rev path.now self.new read) (λ w. (name : PathName) → MetAt look rev (path.now ++ name ∷ []) (Err w)) result }
        ensures kept { Keeps (B.told book.old) (B.told book.new) }
        ensures cause { HasCause (B.faults book.old) (B.faults book.new) result }
    {
        if self.dirs.contains_key(path) {
            return Ok(true);
        }
        match self.dir_named(alloc, book, dir, name)? {
            None => Ok(false),
            Some(found) => {
                let path = path.clone()?;
                self.put_found(alloc, book, path, &found)
            }
        }
    }

    // Reads the directory at a path and those above it, if they are directories. Answers whether it was read.
    fn reach<B: Book>(
        &mut self,
        alloc: Global,
        book: &mut B,
        path: &FsPath,
    ) -> Result<bool, ReadError>
        ensures told { (look : RevisionBytes) (rev : ℕ) → Knows (B.told book.old).revs rev look → AreDirs look rev self.old
            → Finds (λ read. IsReached look rev path.now self.new read) (λ w. (name : PathName) → MetAt look rev (path.now ++ name ∷ []) (Err w)) result }
        ensures kept { Keeps (B.told book.old) (B.told book.new) }
        ensures cause { HasCause (B.faults book.old) (B.faults book.new) result }
    {
        if self.dirs.contains_key(path) {
            return Ok(true);
        }
        let mut above = FsPath::root(alloc);
        for name in path.names() {
            let here = above.child(alloc, name)?;
            if !self.step(alloc, book, &above, name, &here)? {
                return Ok(false);
            }
            above = here;
        }
        Ok(true)
    }

    // The id of what the tree names in the directory at a path, if it names something there.
    fn id_below<B: Book>(
        &mut self,
        alloc: Global,
        book: &mut B,
        above: &FsPath,
        name: &str,
    ) -> Result<Option<NodeId>, ReadError>
        ensures told { (look : RevisionBytes) (rev : ℕ) → Knows (B.told book.old).revs rev look → AreDirs look rev self.old
            → Finds (λ id. IsNamedAt look rev (above.now ++ name.now ∷ []) id × AreDirs look rev self.new) (λ w. MetAt look rev (above.now ++ name.now ∷ []) (Err w)) result }
        ensures kept { Keeps (B.told book.old) (B.told book.new) }
        ensures cause { HasCause (B.faults book.old) (B.faults book.new) result }
    {
        if !self.reach(alloc, book, above)? {
            return Ok(None);
        }
        match self.named(above, name) {
            None => Ok(None),
            Some(entry) => Ok(Some(entry.id)),
        }
    }

    /// The id of what the tree names at a path, if it names something there.
    pub(crate) fn id_at<B: Book>(
        &mut self,
        alloc: Global,
        book: &mut B,
        path: &FsPath,
    ) -> Result<Option<NodeId>, ReadError>
        ensures told { (look : RevisionBytes) (rev : ℕ) → Knows (B.told book.old).revs rev look → AreDirs look rev self.old → Finds (λ id. IsNamedAt look rev path.now id × AreDirs look rev self.new) (λ w. MetAt look rev path.now (Err w)) result }
        ensures kept { Keeps (B.told book.old) (B.told book.new) }
        ensures cause { HasCause (B.faults book.old) (B.faults book.new) result }
    {
        let name = last_name(path);
        match path.parent(alloc)? {
            None => Ok(Some(self.root)),
            Some(above) => self.id_below(alloc, book, &above, name),
        }
    }
}
