//! A walk through a tree, parents first.
//!
//! A directory's entries are put onto a stack of what is left, the first on top, so that a chain of directories of any length
//! takes no more of the machine's own stack.
ghost use Rattle.std.specs.Prelude.{◌≡◌, ◌≤◌, ◌+◌, ◌++◌, ◌<◌, ◌∷◌, ℕ, [], OnOk, IfOk, IfErr, MatchOption};
ghost use Rattle.fsfs_base.specs.declared.kind.Kind.TheVariants.{Dir};
ghost use Rattle.fsfs_revision.specs.Told.{RevisionBytes, Knows, Keeps};
ghost use Rattle.fsfs_revision.specs.Damage.Causes.{HasCause};
ghost use Rattle.fsfs_revision.specs.Damage.Readings.{Answers};
ghost use Rattle.fsfs_revision.specs.declared.wrong.ReadError.TheVariants.{OutOfMemory};
ghost use Rattle.fsfs_revision.specs.Shows.Reading.{OfEntry, offset_of};
ghost use Rattle.fsfs_dag.specs.Seen.{IsSeen};
ghost use Rattle.fsfs_dag.specs.TreeWalks.{pending_value, in_order, left, at_level, AreWithin, Enters, weight, total};
ghost use Rattle.fsfs_dag.specs.Views.{entry_value, entry_values, home_of};

use crate::directory::{DirEntry, entries};
use crate::node::PlacedNode;
use crate::seen_bytes::{SeenBytes, child_seen};
use fsfs_revision::{Book, ReadError};
use std::alloc::Global;

/// An entry that is left, and how many levels it stands below where the walk began.
#[derive(Drop)]
pub struct Pending {
    pub level: usize,
    pub entry: DirEntry,
}

/// What is left of a walk through a tree, and the bytes that were read last: it is to walk in one book.
///
/// Contracts see `left`, the entries in the order in which they are walked. What stands in a directory weighs less than the
/// directory, so that `total` falls with each entry that is taken, also where the directory is entered.
#[derive(Drop)]
pub struct TreeWalk {
    todo: Vec<Pending>,
    seen: SeenBytes,
}

// Puts the entries of a directory onto what is left, the first on top.
fn put_entries(
    todo: &mut Vec<Pending>,
    level: usize,
    mut below: Vec<DirEntry>,
) -> Result<(), ReadError>
    ensures items { OnOk result (in_order todo.new.items ≡ at_level level (entry_values below.items) ++ in_order todo.old.items) }
    ensures memory { IfErr result (λ e. e ≡ OutOfMemory) }
{
    while let Some(entry) = below.pop() {
        if todo.push(Pending { level, entry }).is_err() {
            return Err(ReadError::OutOfMemory);
        }
    }
    Ok(())
}

impl TreeWalk {
    /// Nothing is left.
    pub fn new(alloc: Global) -> TreeWalk
        ensures left { left result ≡ [] }
        ensures seen { (look : RevisionBytes) → IsSeen look result.seen }
    {
        TreeWalk {
            todo: Vec::new(alloc),
            seen: SeenBytes::new(),
        }
    }

    /// Takes the first entry away from what is left.
    pub fn pop(&mut self) -> Option<Pending>
        ensures next { MatchOption result (left self.old ≡ []) (λ next. left self.old ≡ pending_value next ∷ left self.new) }
        ensures seen { self.new.seen ≡ self.old.seen }
    {
        self.todo.pop()
    }

    /// The node-revision that an entry names, as `child_of` reads it.
    pub fn read<B: Book>(
        &mut self,
        alloc: Global,
        book: &mut B,
        entry: &DirEntry,
    ) -> Result<PlacedNode, ReadError>
        ensures told { (look : RevisionBytes) → Knows (B.told book.old).revs (offset_of entry.now.id.place).rev look → IsSeen look self.old.seen → Answers (λ found. found.node) (OfEntry look (entry_value entry.now)) result }
        ensures seen { (look : RevisionBytes) → Knows (B.told book.old).revs (offset_of entry.now.id.place).rev look → IsSeen look self.old.seen → IsSeen look self.new.seen }
        ensures left { left self.new ≡ left self.old }
        ensures id { IfOk result (λ found. found.node.id ≡ entry.now.id) }
        ensures kept { Keeps (B.told book.old) (B.told book.new) }
        ensures cause { HasCause (B.faults book.old) (B.faults book.new) result }
    {
        child_seen(alloc, book, entry, &mut self.seen)
    }

    /// Puts what stands in a directory, which stands so many levels below where the walk began, before all that is left.
    pub fn enter<B: Book>(
        &mut self,
        alloc: Global,
        book: &mut B,
        level: usize,
        dir: &PlacedNode,
    ) -> Result<(), ReadError>
        requires { dir.now.node.kind ≡ Dir }
        ensures told { (look : RevisionBytes) → Knows (B.told book.old).revs (home_of dir.now.node).rev look → Enters look level dir.now.node (left self.old) (left self.new) result }
        ensures within { (top : ℕ) → (home_of dir.now.node).rev ≤ top → AreWithin top (left self.old) → OnOk result (AreWithin top (left self.new)) }
        ensures total { OnOk result (total (left self.new) < total (left self.old) + weight (home_of dir.now.node)) }
        ensures seen { self.new.seen ≡ self.old.seen }
        ensures kept { Keeps (B.told book.old) (B.told book.new) }
        ensures cause { HasCause (B.faults book.old) (B.faults book.new) result }
    {
        // What stands below it weighs less, since an offset has 64 bits.
        let _home = dir.place();
        let Some(next) = level.checked_add(1) else {
            return Err(ReadError::OutOfMemory);
        };
        let below = entries(alloc, book, dir)?;
        put_entries(&mut self.todo, next, below)
    }
}
