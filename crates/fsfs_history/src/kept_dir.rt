//! The directory that was read last.
//!
//! What was replaced in one directory comes in the order of its names, one behind the other, so that its entries are read once.
ghost use Rattle.std.specs.Prelude.{◌≡◌, ◌++◌, ◌∷◌, [], Ok, OnOk, IfOk, IfErr, IfSome};
ghost use Rattle.fsfs_base.specs.declared.kind.Kind.TheVariants.{Dir};
ghost use Rattle.fsfs_revision.specs.Damage.Causes.{HasCause, IsQuiet};
ghost use Rattle.fsfs_tree.specs.Answers.{last_name as last};
ghost use Rattle.fsfs_revision.specs.Damage.Readings.{Answers, IfWrong};
ghost use Rattle.fsfs_revision.specs.Told.{RevisionBytes, Knows, Keeps};
ghost use Rattle.fsfs_noderev.specs.declared.node_rev.NodeRev.{NodeRev};
ghost use Rattle.fsfs_revision.specs.Shows.Reading.{EntriesOf, StandsAt, offset_of};
ghost use Rattle.fsfs_dag.specs.Views.{entry_value, entry_values};
ghost use Rattle.fsfs_stands.specs.ChangedTexts.{KindAt};
ghost use Rattle.fsfs_history.specs.KeptDirs.{EntryKind, IsDirAt, IsKept, is_place};

use crate::entries_by_name::EntriesByName;
use crate::kinds::kind_at;
use fsfs_base::{FsPath, Kind, RevNum};
use fsfs_dag::{DirEntry, Met, PlacedNode, child_of, entries, node_at};
use fsfs_revision::{Book, ReadError};
use std::alloc::Global;

/// A directory: the revision and the path at which it stands, and its entries.
#[derive(Drop)]
pub(crate) struct KeptDir {
    rev: RevNum,
    path: FsPath,
    entries: EntriesByName,
}

// A directory of these entries.
fn dir_of(
    alloc: Global,
    rev: RevNum,
    path: FsPath,
    all: Vec<DirEntry>,
) -> Result<Option<KeptDir>, ReadError>
    ensures told { (look : RevisionBytes) (v : NodeRev) → StandsAt look rev path v → v.kind ≡ Dir → EntriesOf look v (Ok (entry_values all.items)) → IfOk result (IsKept look) }
    ensures place { IfOk result (λ dir. IfSome dir (λ d. (d.rev ≡ rev) × (d.path ≡ path))) }
    ensures failed { IfErr result (IfWrong (λ _. ⊥)) }
    ensures quiet { IsQuiet result }
{
    match EntriesByName::of(alloc, all) {
        Ok(entries) => Ok(Some(KeptDir { rev, path, entries })),
        Err(_) => Err(ReadError::OutOfMemory),
    }
}

// The directory that stands at a path of a revision, if its entries are read. What is wrong with them is told by who reads
// them anew.
fn read_dir<B: Book>(
    alloc: Global,
    book: &mut B,
    rev: RevNum,
    path: FsPath,
    found: &PlacedNode,
) -> Result<Option<KeptDir>, ReadError>
    requires { found.now.node.kind ≡ Dir }
    ensures told { (look : RevisionBytes) → Knows (B.told book.old).revs rev look → StandsAt look rev path found.now.node → IfOk result (IsKept look) }
    ensures place { IfOk result (λ dir. IfSome dir (λ d. (d.rev ≡ rev) × (d.path ≡ path))) }
    ensures failed { IfErr result (IfWrong (λ _. ⊥)) }
    ensures kept { Keeps (B.told book.old) (B.told book.new) }
    ensures cause { HasCause (B.faults book.old) (B.faults book.new) result }
{
    match entries(alloc, book, found) {
        Ok(all) => dir_of(alloc, rev, path, all),
        Err(ReadError::Wrong(_)) => Ok(None),
        Err(ReadError::OutOfMemory) => Err(ReadError::OutOfMemory),
        Err(ReadError::DiskFault) => Err(ReadError::DiskFault),
    }
}

// What stands at a path of a revision, if it is a directory whose entries are read.
fn as_dir<B: Book>(
    alloc: Global,
    book: &mut B,
    rev: RevNum,
    path: FsPath,
    found: &PlacedNode,
) -> Result<Option<KeptDir>, ReadError>
    ensures told { (look : RevisionBytes) → Knows (B.told book.old).revs rev look → StandsAt look rev path found.now.node → IfOk result (IsKept look) }
    ensures place { IfOk result (λ dir. IfSome dir (λ d. (d.rev ≡ rev) × (d.path ≡ path))) }
    ensures failed { IfErr result (IfWrong (λ _. ⊥)) }
    ensures kept { Keeps (B.told book.old) (B.told book.new) }
    ensures cause { HasCause (B.faults book.old) (B.faults book.new) result }
{
    match found.node.kind {
        Kind::File => Ok(None),
        Kind::Dir => read_dir(alloc, book, rev, path, found),
    }
}

// The directory at a path of a revision, if one stands there whose entries are read.
fn dir_at<B: Book>(
    alloc: Global,
    book: &mut B,
    rev: RevNum,
    path: FsPath,
) -> Result<Option<KeptDir>, ReadError>
    ensures told { (look : RevisionBytes) → Knows (B.told book.old).revs rev look → IfOk result (IsKept look) }
    ensures place { IfOk result (λ dir. IfSome dir (λ d. (d.rev ≡ rev) × (d.path ≡ path))) }
    ensures failed { IfErr result (IfWrong (λ _. ⊥)) }
    ensures kept { Keeps (B.told book.old) (B.told book.new) }
    ensures cause { HasCause (B.faults book.old) (B.faults book.new) result }
{
    match node_at(alloc, book, rev, &path) {
        Ok(Met::Node(found)) => as_dir(alloc, book, rev, path, &found),
        Ok(Met::Absent(_)) => Ok(None),
        Ok(Met::File(_)) => Ok(None),
        Err(ReadError::Wrong(_)) => Ok(None),
        Err(ReadError::OutOfMemory) => Err(ReadError::OutOfMemory),
        Err(ReadError::DiskFault) => Err(ReadError::DiskFault),
    }
}

// Whether the directory that is kept is that of the path of the revision.
fn is_at(kept: &Option<KeptDir>, rev: RevNum, path: &FsPath) -> bool
    ensures { result ≡ is_place kept.now rev path.now }
{
    match kept {
        None => false,
        Some(dir) => dir.rev.get() == rev.get() && dir.path == *path,
    }
}

// Keeps the directory at a path of a revision, if one stands there.
fn keep_dir<B: Book>(
    alloc: Global,
    book: &mut B,
    kept: &mut Option<KeptDir>,
    rev: RevNum,
    path: FsPath,
) -> Result<(), ReadError>
    ensures dir { (look : RevisionBytes) → Knows (B.told book.old).revs rev look → IsKept look kept.old → IsKept look kept.new }
    ensures place { OnOk result (IfSome kept.new (λ dir. (dir.rev ≡ rev) × (dir.path ≡ path))) }
    ensures failed { IfErr result (IfWrong (λ _. ⊥)) }
    ensures kept { Keeps (B.told book.old) (B.told book.new) }
    ensures cause { HasCause (B.faults book.old) (B.faults book.new) result }
{
    if is_at(kept, rev, &path) {
        return Ok(());
    }
    *kept = dir_at(alloc, book, rev, path)?;
    Ok(())
}

// The kind of the node-revision that an entry names.
fn entry_kind<B: Book>(alloc: Global, book: &mut B, entry: &DirEntry) -> Result<Kind, ReadError>
    ensures told { (look : RevisionBytes) → Knows (B.told book.old).revs (offset_of entry.now.id.place).rev look → Answers (λ k. k) (EntryKind look (entry_value entry.now)) result }
    ensures kept { Keeps (B.told book.old) (B.told book.new) }
    ensures cause { HasCause (B.faults book.old) (B.faults book.new) result }
{
    match child_of(alloc, book, entry) {
        Ok(child) => Ok(child.node.kind),
        Err(error) => Err(error),
    }
}

// The kind of what a name of a directory leads to, or this one where it leads to nothing.
fn kind_named<B: Book>(
    alloc: Global,
    book: &mut B,
    dir: &KeptDir,
    name: &str,
    absent: Kind,
) -> Result<Kind, ReadError>
    ensures told { (look : RevisionBytes) → Knows (B.told book.old).revs dir.now.rev look → IsDirAt look dir.now → Answers (λ k. k) (KindAt look dir.now.rev (dir.now.path ++ name.now ∷ []) absent) result }
    ensures kept { Keeps (B.told book.old) (B.told book.new) }
    ensures cause { HasCause (B.faults book.old) (B.faults book.new) result }
{
    match dir.entries.get(name) {
        None => Ok(absent),
        Some(entry) => entry_kind(alloc, book, entry),
    }
}

// The kind of what stands at a path, by the directory above it where that is kept.
fn kind_below<B: Book>(
    alloc: Global,
    book: &mut B,
    kept: &Option<KeptDir>,
    rev: RevNum,
    path: &FsPath,
    name: &str,
    absent: Kind,
) -> Result<Kind, ReadError>
    requires { IfSome kept.now (λ dir. (dir.rev ≡ rev) × (path.now ≡ dir.path ++ name.now ∷ [])) }
    ensures told { (look : RevisionBytes) → Knows (B.told book.old).revs rev look → IsKept look kept.now → Answers (λ k. k) (KindAt look rev path.now absent) result }
    ensures kept { Keeps (B.told book.old) (B.told book.new) }
    ensures cause { HasCause (B.faults book.old) (B.faults book.new) result }
{
    match kept {
        None => kind_at(alloc, book, rev, path, absent),
        Some(dir) => kind_named(alloc, book, dir, name, absent),
    }
}

// The same, with the directory of this path, which the path stands in, kept from then on.
fn kind_in<B: Book>(
    alloc: Global,
    book: &mut B,
    kept: &mut Option<KeptDir>,
    rev: RevNum,
    path: &FsPath,
    above: FsPath,
    name: &str,
    absent: Kind,
) -> Result<Kind, ReadError>
    requires { path.now ≡ above ++ name.now ∷ [] }
    ensures told { (look : RevisionBytes) → Knows (B.told book.old).revs rev look → IsKept look kept.old → Answers (λ k. k) (KindAt look rev path.now absent) result }
    ensures dir { (look : RevisionBytes) → Knows (B.told book.old).revs rev look → IsKept look kept.old → IsKept look kept.new }
    ensures kept { Keeps (B.told book.old) (B.told book.new) }
    ensures cause { HasCause (B.faults book.old) (B.faults book.new) result }
{
    match keep_dir(alloc, book, kept, rev, above) {
        Ok(()) => kind_below(alloc, book, kept, rev, path, name, absent),
        Err(error) => Err(error),
    }
}

// The last name of a path; `/` has none.
fn last_name(path: &FsPath) -> &str
    ensures { result.now ≡ last path.now }
{
    match path.names() {
        [.., last] => last,
        [] => "",
    }
}

/// The kind of what stands at a path of a revision, as `kind_at` reads it, where the directory that was read last is kept from
/// call to call: it is to be kept for calls of one book.
pub(crate) fn kind_kept<B: Book>(
    alloc: Global,
    book: &mut B,
    kept: &mut Option<KeptDir>,
    rev: RevNum,
    path: &FsPath,
    absent: Kind,
) -> Result<Kind, ReadError>
    ensures told { (look : RevisionBytes) → Knows (B.told book.old).revs rev look → IsKept look kept.old → Answers (λ k. k) (KindAt look rev path.now absent) result }
    ensures dir { (look : RevisionBytes) → Knows (B.told book.old).revs rev look → IsKept look kept.old → IsKept look kept.new }
    ensures kept { Keeps (B.told book.old) (B.told book.new) }
    ensures cause { HasCause (B.faults book.old) (B.faults book.new) result }
{
    let name = last_name(path);
    match path.parent(alloc) {
        Ok(Some(above)) => kind_in(alloc, book, kept, rev, path, above, name, absent),
        Ok(None) => kind_at(alloc, book, rev, path, absent),
        Err(_) => Err(ReadError::OutOfMemory),
    }
}
