//! The node-revision at a place of a revision, and a revision's root.
ghost use Rattle.std.specs.Prelude.{◌≡◌, ◌≤◌, ◌<◌, ◌^◌, ◌+◌, ℕ, true, length, take, IfOk};
ghost use Rattle.fsfs_revision.specs.Told.{RevisionBytes, Knows, Keeps, IsTold};
ghost use Rattle.fsfs_revision.specs.Nodes.{is_ordered};
ghost use Rattle.fsfs_revision.specs.Damage.Readings.{Answers};
ghost use Rattle.fsfs_noderev.specs.Writing.{HasText};
ghost use Rattle.fsfs_revision.specs.Shows.Reading.{NodeAt, RootOf, OfEntry, OfId, HasId, HasKind, offset_of};
ghost use Rattle.fsfs_revision.specs.Damage.Causes.{HasCause, IsQuiet};
ghost use Rattle.fsfs_dag.specs.Told.{LengthOf, WindowAt, EndOf, is_decided};
ghost use Rattle.fsfs_dag.specs.Views.{entry_value};

use crate::directory::DirEntry;
use crate::node::PlacedNode;
use crate::places::offset_of;
use crate::same::same_id;
use fsfs_base::RevNum;
use fsfs_noderev::{MAX_NODE_REV, NodeId, NodeRev};
use fsfs_revision::{
    Book, BookFault, DamageKind, ReadError, RevOffset, TRAILER_LIMIT, Wrong, as_root, read_node_at,
    read_tail,
};
use std::alloc::Global;

// What is read first of a node-revision. But for its paths it has some hundreds of bytes, so that few are longer than this;
// to clear and read the whole limit for each costs more than the reading itself.
const USUAL_NODE_REV: usize = 1024;

/// How many bytes a revision has; none where its file is short.
pub fn revision_length<B: Book>(book: &mut B, rev: RevNum) -> Result<u64, ReadError>
    ensures told { (look : RevisionBytes) → IsTold (B.told book.old) look rev → Answers (λ n. n) (LengthOf look rev) result }
    ensures kept { Keeps (B.told book.old) (B.told book.new) }
    ensures cause { HasCause (B.faults book.old) (B.faults book.new) result }
{
    match book.rev_len(rev) {
        Ok(len) => Ok(len),
        Err(BookFault::Refused(refusal)) => Err(ReadError::Wrong(Wrong::Refused(refusal))),
        Err(BookFault::Short { .. }) => Ok(0),
        Err(BookFault::DiskFault) => Err(ReadError::DiskFault),
        Err(BookFault::OutOfMemory) => Err(ReadError::OutOfMemory),
    }
}

// Reads a revision's bytes from a place on, as many as there are and as fit; none past the end.
pub(crate) fn window<B: Book>(
    book: &mut B,
    at: &RevOffset,
    buffer: &mut [u8],
) -> Result<usize, ReadError>
    ensures bound { IfOk result (λ n. n ≤ length buffer.new) }
    ensures told { (look : RevisionBytes) → IsTold (B.told book.old) look at.now.rev → Answers (λ n. take n buffer.new) (WindowAt look at.now (length buffer.old)) result }
    ensures kept { Keeps (B.told book.old) (B.told book.new) }
    ensures cause { HasCause (B.faults book.old) (B.faults book.new) result }
{
    fsfs_revision::window(book, at.rev, at.offset, buffer)
}

// Where the trailer says that a revision's root stands.
fn root_place<B: Book>(book: &mut B, rev: RevNum) -> Result<RevOffset, ReadError>
    ensures told { (look : RevisionBytes) → IsTold (B.told book.old) look rev → Answers (λ at. at) (EndOf look rev) result }
    ensures rev { IfOk result (λ at. at.rev ≡ rev) }
    ensures kept { Keeps (B.told book.old) (B.told book.new) }
    ensures cause { HasCause (B.faults book.old) (B.faults book.new) result }
{
    let len = revision_length(book, rev)?;
    let begins = len.saturating_sub(TRAILER_LIMIT as u64);
    let at = RevOffset {
        rev,
        offset: begins,
    };
    let mut tail = [0u8; TRAILER_LIMIT];
    let count = window(book, &at, &mut tail)?;
    match read_tail(begins, &tail[..count]) {
        Some(trailer) => Ok(RevOffset {
            rev,
            offset: trailer.root,
        }),
        None => Err(ReadError::damaged(RevOffset { rev, offset: len }, DamageKind::Trailer)),
    }
}

// The node-revision that stands at a place, or why none does, of all the bytes that one may have. A function of its own, so
// that their buffer is made only where it is wanted.
#[inline(never)]
pub(crate) fn node_in_whole<B: Book>(
    alloc: Global,
    book: &mut B,
    at: &RevOffset,
) -> Result<NodeRev, ReadError>
    ensures told { (look : RevisionBytes) → IsTold (B.told book.old) look at.now.rev → Answers (λ v. v) (NodeAt look at.now) result }
    ensures ordered { IfOk result (λ v. is_ordered at.now v ≡ true) }
    ensures writable { IfOk result HasText }
    ensures kept { Keeps (B.told book.old) (B.told book.new) }
    ensures cause { HasCause (B.faults book.old) (B.faults book.new) result }
{
    let mut bytes = [0u8; MAX_NODE_REV];
    let count = window(book, at, &mut bytes)?;
    read_node_at(alloc, at, &bytes[..count])
}

// Whether what a front of the bytes showed stays so whatever stands behind it: a node-revision, or that memory ran out. What is
// refused may only be cut off. It only looks at the answer, since a node-revision is dear to move.
pub(crate) fn is_decided(read: &Result<NodeRev, ReadError>) -> bool
    ensures { result ≡ is_decided read.now }
{
    match read {
        Ok(_) => true,
        Err(ReadError::OutOfMemory) => true,
        Err(ReadError::DiskFault) => false,
        Err(ReadError::Wrong(_)) => false,
    }
}

// The node-revision that stands at a place. Bytes behind its text change nothing, so a front of them shows it; where that
// doesn't decide, all the bytes do.
pub(crate) fn node_read<B: Book>(
    alloc: Global,
    book: &mut B,
    at: &RevOffset,
) -> Result<NodeRev, ReadError>
    ensures told { (look : RevisionBytes) → IsTold (B.told book.old) look at.now.rev → Answers (λ v. v) (NodeAt look at.now) result }
    ensures ordered { IfOk result (λ v. is_ordered at.now v ≡ true) }
    ensures writable { IfOk result HasText }
    ensures kept { Keeps (B.told book.old) (B.told book.new) }
    ensures cause { HasCause (B.faults book.old) (B.faults book.new) result }
{
    let mut bytes = [0u8; USUAL_NODE_REV];
    let count = window(book, at, &mut bytes)?;
    let read = read_node_at(alloc, at, &bytes[..count]);
    if is_decided(&read) {
        return read;
    }
    node_in_whole(alloc, book, at)
}

/// The root of a revision: the node-revision that its trailer names. Trailer, NodeRev, PlaceOrder, OtherId and EntryKind
/// are tried in this order.
pub fn root_of<B: Book>(alloc: Global, book: &mut B, rev: RevNum) -> Result<PlacedNode, ReadError>
    ensures told { (look : RevisionBytes) → Knows (B.told book.old).revs rev look → Answers (λ found. found.node) (RootOf look rev) result }
    ensures rev { IfOk result (λ found. (offset_of found.node.id.place).rev ≡ rev) }
    // What is read can be written.
    ensures writable { IfOk result (λ found. HasText found.node) }
    ensures kept { Keeps (B.told book.old) (B.told book.new) }
    ensures cause { HasCause (B.faults book.old) (B.faults book.new) result }
{
    let at = root_place(book, rev)?;
    let read = node_read(alloc, book, &at)?;
    let node = as_root(&at, read)?;
    Ok(PlacedNode { node })
}

// Whether the node-revision has the id that names it. It only looks at it, since a node-revision is dear to move.
pub(crate) fn check_id(id: &NodeId, node: &NodeRev) -> Result<(), ReadError>
    ensures told { Answers (λ _. node.now) (HasId id.now node.now) result }
    ensures quiet { IsQuiet result }
{
    if same_id(&node.id, id) {
        Ok(())
    } else {
        Err(ReadError::damaged(offset_of(id.place), DamageKind::OtherId))
    }
}

/// The node-revision of an id, whatever its kind.
pub fn named_node<B: Book>(
    alloc: Global,
    book: &mut B,
    id: &NodeId,
) -> Result<PlacedNode, ReadError>
    ensures told { (look : RevisionBytes) → Knows (B.told book.old).revs (offset_of id.now.place).rev look → Answers (λ found. found.node) (OfId look id.now) result }
    ensures id { IfOk result (λ found. found.node.id ≡ id.now) }
    ensures kept { Keeps (B.told book.old) (B.told book.new) }
    ensures cause { HasCause (B.faults book.old) (B.faults book.new) result }
{
    let node = node_read(alloc, book, &offset_of(id.place))?;
    check_id(id, &node)?;
    Ok(PlacedNode { node })
}

// Whether the child has the kind that its entry says.
pub(crate) fn check_kind(entry: &DirEntry, child: &NodeRev) -> Result<(), ReadError>
    ensures told { Answers (λ _. child.now) (HasKind (entry_value entry.now) child.now) result }
    ensures quiet { IsQuiet result }
{
    if child.kind == entry.kind {
        Ok(())
    } else {
        Err(ReadError::damaged(offset_of(entry.id.place), DamageKind::EntryKind))
    }
}

/// The node-revision that an entry names. NodeRev, PlaceOrder, OtherId and EntryKind are tried in this order.
pub fn child_of<B: Book>(
    alloc: Global,
    book: &mut B,
    entry: &DirEntry,
) -> Result<PlacedNode, ReadError>
    ensures told { (look : RevisionBytes) → Knows (B.told book.old).revs (offset_of entry.now.id.place).rev look → Answers (λ found. found.node) (OfEntry look (entry_value entry.now)) result }
    ensures id { IfOk result (λ found. found.node.id ≡ entry.now.id) }
    ensures kept { Keeps (B.told book.old) (B.told book.new) }
    ensures cause { HasCause (B.faults book.old) (B.faults book.new) result }
{
    let child = named_node(alloc, book, &entry.id)?;
    check_kind(entry, &child.node)?;
    Ok(child)
}
