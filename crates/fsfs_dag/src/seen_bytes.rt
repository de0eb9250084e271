//! The bytes that were read last, kept for the node-revisions that stand beside the one that was read.
//!
//! The nodes of a directory are mostly written in one revision, one behind the other and before the directory itself.
ghost use Rattle.std.specs.Prelude.{◌≡◌, ◌==◌, ◌&&◌, ◌||◌, ◌-◌, nat_le, nat_lt, ℕ, true, length, take, Ok, IfOk, IfSome};
ghost use Rattle.fsfs_revision.specs.Told.{RevisionBytes, Knows, Keeps, IsTold};
ghost use Rattle.fsfs_revision.specs.Nodes.{is_ordered};
ghost use Rattle.fsfs_revision.specs.Damage.Readings.{Answers};
ghost use Rattle.fsfs_revision.specs.Damage.Causes.{HasCause, IsQuiet};
ghost use Rattle.fsfs_revision.specs.Shows.Reading.{NodeAt, OfEntry, offset_of};
ghost use Rattle.fsfs_dag.specs.Told.{WindowAt, is_decided};
ghost use Rattle.fsfs_dag.specs.Seen.{IsKept, IsSeen};
ghost use Rattle.fsfs_dag.specs.Views.{entry_value};

use crate::directory::DirEntry;
use crate::node::PlacedNode;
use crate::places::offset_of;
use crate::reading::{check_id, check_kind, is_decided, node_in_whole, node_read, window};
use fsfs_base::RevNum;
use fsfs_noderev::NodeRev;
use fsfs_revision::{Book, DamageKind, ReadError, RevOffset, read_node_at};
use std::alloc::Global;

// How many bytes are kept: some twenty node-revisions with short texts between them.
const KEPT: usize = 8192;

// How many of them stand before the node-revision for which they are read, so that they show the nodes of a small directory
// too.
const BEFORE: u64 = 1024;

// How far from its beginning a stretch still goes on: to the node-revisions right behind what is kept.
const NEAR: u64 = 16384;

/// Bytes of a revision that were read together, and their place.
#[derive(Drop)]
pub struct Stretch {
    at: RevOffset,
    count: usize,
    bytes: [u8; KEPT],
}

/// The two stretches that were read last. A directory's names may go by turns through two rows of nodes, as `f998`, `f9980`
/// to `f9989`, `f999` do where they were made by their numbers.
#[derive(Drop)]
pub struct SeenBytes {
    first: Stretch,
    second: Stretch,
    // Whether the second is the one that was used last.
    uses_second: bool,
}

impl Stretch {
    /// Nothing is kept.
    fn new() -> Stretch
        ensures { (look : RevisionBytes) → IsKept look result }
    {
        Stretch {
            at: RevOffset {
                rev: RevNum::ZERO,
                offset: 0,
            },
            count: 0,
            bytes: [0u8; KEPT],
        }
    }

    // Keeps nothing, from this place on.
    fn turn_to(&mut self, at: RevOffset)
        ensures at { self.new.at ≡ at }
        ensures none { self.new.count ≡ 0 }
        ensures room { self.new.bytes ≡ self.old.bytes }
    {
        self.at = at;
        self.count = 0;
    }

    // Whether what is kept goes on to a place: it is of the same revision, and holds nothing yet or begins a little before it.
    fn goes_on(&self, at: &RevOffset) -> bool
        ensures { result ≡ (self.now.at.rev == at.now.rev && (self.now.count == 0 || (nat_le self.now.at.offset at.now.offset && nat_lt (at.now.offset - self.now.at.offset) 16384))) }
    {
        self.at.rev.get() == at.rev.get()
            && (self.count == 0
                || (self.at.offset <= at.offset && at.offset - self.at.offset < NEAR))
    }

    // What is kept from a place on.
    fn from_place(&self, at: &RevOffset) -> Option<&[u8]>
        ensures { (look : RevisionBytes) → IsKept look self.now → IfSome result (λ seen. (count : ℕ) × WindowAt look at.now count (Ok seen.now)) }
    {
        let kept = self.bytes.get(..self.count)?;
        if at.rev.get() != self.at.rev.get() || at.offset < self.at.offset {
            return None;
        }
        let skipped = at.offset - self.at.offset;
        if skipped >= kept.len() as u64 {
            return None;
        }
        Some(&kept[skipped as usize..])
    }

    // Keeps a revision's bytes from a place on.
    fn read<B: Book>(&mut self, book: &mut B, at: RevOffset) -> Result<(), ReadError>
        ensures told { (look : RevisionBytes) → IsTold (B.told book.old) look at.rev → Answers (λ _. take self.new.count self.new.bytes) (WindowAt look at (length self.old.bytes)) result }
        ensures seen { (look : RevisionBytes) → IsTold (B.told book.old) look at.rev → IsKept look self.new }
        ensures kept { Keeps (B.told book.old) (B.told book.new) }
        ensures cause { HasCause (B.faults book.old) (B.faults book.new) result }
    {
        self.turn_to(at);
        self.count = window(book, &at, &mut self.bytes)?;
        Ok(())
    }
}

impl SeenBytes {
    /// Nothing is kept.
    pub fn new() -> SeenBytes
        ensures { (look : RevisionBytes) → IsSeen look result }
    {
        SeenBytes {
            first: Stretch::new(),
            second: Stretch::new(),
            uses_second: false,
        }
    }

    // Turns to the other stretch where that shows the place, or where the one that was used last doesn't go on to it.
    fn turn(&mut self, at: &RevOffset)
        ensures first { self.new.first ≡ self.old.first }
        ensures second { self.new.second ≡ self.old.second }
    {
        let first = self.first.from_place(at).is_some();
        let second = self.second.from_place(at).is_some();
        let turns = if self.uses_second {
            !second && (first || !self.second.goes_on(at))
        } else {
            !first && (second || !self.first.goes_on(at))
        };
        if turns {
            self.uses_second = !self.uses_second;
        }
    }
}

// The node-revision at a place, as what is kept shows it. That may end within one, so that damage decides nothing.
fn node_kept(alloc: Global, at: &RevOffset, seen: &Stretch) -> Result<NodeRev, ReadError>
    ensures told { (look : RevisionBytes) → IsKept look seen.now → is_decided result ≡ true → Answers (λ v. v) (NodeAt look at.now) result }
    ensures ordered { IfOk result (λ v. is_ordered at.now v ≡ true) }
    ensures quiet { IsQuiet result }
{
    match seen.from_place(at) {
        None => Err(ReadError::damaged(*at, DamageKind::NodeRev)),
        Some(bytes) => read_node_at(alloc, at, bytes),
    }
}

// The node-revision at a place, of what is read anew, or, where that doesn't show one, of all its bytes.
fn node_anew<B: Book>(
    alloc: Global,
    book: &mut B,
    at: &RevOffset,
    seen: &mut Stretch,
) -> Result<NodeRev, ReadError>
    ensures told { (look : RevisionBytes) → IsTold (B.told book.old) look at.now.rev → Answers (λ v. v) (NodeAt look at.now) result }
    ensures seen { (look : RevisionBytes) → IsTold (B.told book.old) look at.now.rev → IsKept look seen.new }
    ensures ordered { IfOk result (λ v. is_ordered at.now v ≡ true) }
    ensures kept { Keeps (B.told book.old) (B.told book.new) }
    ensures cause { HasCause (B.faults book.old) (B.faults book.new) result }
{
    let begins = RevOffset {
        rev: at.rev,
        offset: at.offset.saturating_sub(BEFORE),
    };
    seen.read(book, begins)?;
    let kept = node_kept(alloc, at, seen);
    if is_decided(&kept) {
        return kept;
    }
    node_in_whole(alloc, book, at)
}

// The node-revision at a place, of what is kept or of what is read anew. A function of its own, so that room for what it
// holds is cleared only where it is wanted.
#[inline(never)]
fn node_beside<B: Book>(
    alloc: Global,
    book: &mut B,
    at: &RevOffset,
    seen: &mut Stretch,
) -> Result<NodeRev, ReadError>
    ensures told { (look : RevisionBytes) → IsTold (B.told book.old) look at.now.rev → IsKept look seen.old → Answers (λ v. v) (NodeAt look at.now) result }
    ensures seen { (look : RevisionBytes) → IsTold (B.told book.old) look at.now.rev → IsKept look seen.old → IsKept look seen.new }
    ensures ordered { IfOk result (λ v. is_ordered at.now v ≡ true) }
    ensures kept { Keeps (B.told book.old) (B.told book.new) }
    ensures cause { HasCause (B.faults book.old) (B.faults book.new) result }
{
    let kept = node_kept(alloc, at, seen);
    if is_decided(&kept) {
        return kept;
    }
    node_anew(alloc, book, at, seen)
}

// The node-revision at a place. The first of a revision is read alone, since it may be the only one that is asked for there.
fn node_near<B: Book>(
    alloc: Global,
    book: &mut B,
    at: &RevOffset,
    seen: &mut Stretch,
) -> Result<NodeRev, ReadError>
    ensures told { (look : RevisionBytes) → IsTold (B.told book.old) look at.now.rev → IsKept look seen.old → Answers (λ v. v) (NodeAt look at.now) result }
    ensures seen { (look : RevisionBytes) → IsTold (B.told book.old) look at.now.rev → IsKept look seen.old → IsKept look seen.new }
    ensures ordered { IfOk result (λ v. is_ordered at.now v ≡ true) }
    ensures kept { Keeps (B.told book.old) (B.told book.new) }
    ensures cause { HasCause (B.faults book.old) (B.faults book.new) result }
{
    if seen.at.rev.get() != at.rev.get() {
        seen.turn_to(*at);
        return node_read(alloc, book, at);
    }
    node_beside(alloc, book, at, seen)
}

// The node-revision at a place, by that of the two stretches that shows it, or else by the one that was used longer ago.
fn node_seen<B: Book>(
    alloc: Global,
    book: &mut B,
    at: &RevOffset,
    seen: &mut SeenBytes,
) -> Result<NodeRev, ReadError>
    ensures told { (look : RevisionBytes) → IsTold (B.told book.old) look at.now.rev → IsSeen look seen.old → Answers (λ v. v) (NodeAt look at.now) result }
    ensures seen { (look : RevisionBytes) → IsTold (B.told book.old) look at.now.rev → IsSeen look seen.old → IsSeen look seen.new }
    ensures ordered { IfOk result (λ v. is_ordered at.now v ≡ true) }
    ensures kept { Keeps (B.told book.old) (B.told book.new) }
    ensures cause { HasCause (B.faults book.old) (B.faults book.new) result }
{
    seen.turn(at);
    if seen.uses_second {
        node_near(alloc, book, at, &mut seen.second)
    } else {
        node_near(alloc, book, at, &mut seen.first)
    }
}

/// The node-revision that an entry names, as `child_of` reads it, where what was read last is kept from call to call: it is
/// to be kept for calls of one book.
pub(crate) fn child_seen<B: Book>(
    alloc: Global,
    book: &mut B,
    entry: &DirEntry,
    seen: &mut SeenBytes,
) -> Result<PlacedNode, ReadError>
    ensures told { (look : RevisionBytes) → Knows (B.told book.old).revs (offset_of entry.now.id.place).rev look → IsSeen look seen.old → Answers (λ found. found.node) (OfEntry look (entry_value entry.now)) result }
    ensures seen { (look : RevisionBytes) → Knows (B.told book.old).revs (offset_of entry.now.id.place).rev look → IsSeen look seen.old → IsSeen look seen.new }
    ensures id { IfOk result (λ found. found.node.id ≡ entry.now.id) }
    ensures kept { Keeps (B.told book.old) (B.told book.new) }
    ensures cause { HasCause (B.faults book.old) (B.faults book.new) result }
{
    match node_seen(alloc, book, &offset_of(entry.id.place), seen) {
        Err(error) => Err(error),
        Ok(node) => {
            check_id(&entry.id, &node)?;
            check_kind(entry, &node)?;
            Ok(PlacedNode { node })
        }
    }
}
