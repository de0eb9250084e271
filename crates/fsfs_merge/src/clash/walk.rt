//! The walk that finds the first clash, or the directories that a merge writes.
//!
//! What is left to look at stands on a stack of its own, so that a chain of directories of any length takes no more of the
//! machine's own stack.
ghost use Rattle.std.specs.Prelude.{◌≡◌, ◌≤◌, ◌<◌, ◌+◌, ◌++◌, [], ◌∷◌, ℕ, List, Some, OnOk, IfOk, IfErr};
ghost use Rattle.fsfs_revision.specs.Ancestry.Trees.{ShowTrees};
ghost use Rattle.fsfs_base.specs.Paths.{Path};
ghost use Rattle.fsfs_revision.specs.Told.{RevisionBytes, Knows, Keeps};
ghost use Rattle.fsfs_revision.specs.Damage.Readings.{Answers};
ghost use Rattle.fsfs_revision.specs.Damage.Causes.{HasCause};
ghost use Rattle.fsfs_revision.specs.declared.wrong.ReadError.TheVariants.{OutOfMemory};
ghost use Rattle.fsfs_dag.specs.Views.{AreBefore};
ghost use Rattle.fsfs_draft.specs.Whole.{IsDraftOf};
ghost use Rattle.fsfs_model.specs.Flat.Transactions.{IsTransaction};
ghost use Rattle.fsfs_model.specs.declared.flat.mark.Mark.{Mark};
ghost use Rattle.fsfs_tree.specs.Nodes.{TreeFunction};
ghost use Rattle.fsfs_merge.specs.Clash.Merges.{FindsMerge, MergeFrom, MergeOf};
ghost use Rattle.fsfs_merge.specs.Clash.Lists.{names_in, three_in};
ghost use Rattle.fsfs_merge.specs.Clash.Turning.{lists_value, IsFailure};
ghost use Rattle.fsfs_merge.specs.Clash.Points.{Point, IsSeen, IsSeenFrom};
ghost use Rattle.fsfs_merge.specs.Clash.Walks.{if_changed, changed, least, root_target, root_three};
ghost use Rattle.fsfs_merge.specs.Clash.UnderWay.{GoesDown, IsOpened, IsWalk, IsUnderWay, IsWalked, answer_of, answered};
ghost use Rattle.fsfs_merge.specs.Clash.Weights.{total, weight, weight_in};

use crate::clash::entries::{Entries, Sides, sides_of};
use crate::clash::merged::{MergedDir, merged_entries};
use crate::clash::three::{Target, Three, Which};
use crate::clash::turn::{Halt, Listing, Turn, turn_at};
use fsfs_base::{FsPath, Kind, RevNum};
use fsfs_dag::root_of;
use fsfs_draft::{Own, root_id};
use fsfs_noderev::{NodeId, NodeRev};
use fsfs_revision::{Book, ReadError};
use std::alloc::{AllocError, Global};
use std::cmp::Ordering;

/// A path that both sides changed, and what the three have there.
#[derive(Drop)]
pub(crate) struct Pending {
    pub path: FsPath,
    pub three: Three,
}

/// A path at which the merge goes no further, and why.
#[derive(Drop)]
pub(crate) struct Found {
    pub path: FsPath,
    pub halt: Halt,
}

/// What is left to look at, and what was found so far.
#[derive(Drop)]
pub(crate) struct Progress {
    pub todo: Vec<Pending>,
    /// The least path at which the merge goes no further.
    pub first: Option<Found>,
    /// The directories that it writes, where there is none.
    pub dirs: Vec<MergedDir>,
}

/// What becomes of a transaction over a later revision.
#[derive(Drop)]
pub enum Merge {
    /// The two clash here first.
    Clash(FsPath),
    /// Nothing clashes; these directories are written.
    Dirs(Vec<MergedDir>),
}

/// The ids of three roots: of the base, of the head, and of the transaction.
#[derive(Clone, Copy)]
pub(crate) struct Roots {
    pub base: NodeId,
    pub head: NodeId,
    pub own: NodeId,
}

// Puts what stands behind a name, where there is such a change.
fn push_if_changed(
    alloc: Global,
    todo: &mut Vec<Pending>,
    path: &FsPath,
    name: &str,
    sides: &Sides,
    which: Which,
) -> Result<(), AllocError>
    ensures { OnOk result (todo.new.items ≡ todo.old.items ++ if_changed which (path.now ++ name.now ∷ []) (three_in sides.now name.now)) }
{
    let three = sides.three(name);
    if !which.has(&three) {
        return Ok(());
    }
    let path = path.child(alloc, name)?;
    todo.push(Pending { path, three })?;
    Ok(())
}

// Puts those of the names behind which there is such a change.
fn push_changed(
    alloc: Global,
    todo: &mut Vec<Pending>,
    path: &FsPath,
    names: &Entries,
    sides: &Sides,
    which: Which,
) -> Result<(), AllocError>
    ensures { OnOk result (todo.new.items ≡ todo.old.items ++ changed which path.now sides.now (names_in names.now)) }
{
    for (name, _target) in &names.targets {
        push_if_changed(alloc, todo, path, name.as_str(), sides, which)?;
    }
    Ok(())
}

// Puts what both sides changed in three directories, each path once; and how the merged one is written.
fn open(
    alloc: Global,
    todo: &mut Vec<Pending>,
    path: FsPath,
    lists: Listing,
) -> Result<MergedDir, ReadError>
    ensures opened { IfOk result (λ dir. IsOpened (lists_value lists) path todo.old.items todo.new.items dir) }
    // What stands below weighs less, since an offset has 64 bits.
    ensures total { AreBefore lists.home lists.base.items → OnOk result (total todo.new.items < total todo.old.items + weight lists.home) }
    ensures memory { IfErr result (λ e. e ≡ OutOfMemory) }
{
    let link = lists.link;
    let sides = sides_of(alloc, lists)?;
    push_changed(alloc, todo, &path, &sides.base, &sides, Which::Changed)?;
    push_changed(alloc, todo, &path, &sides.own, &sides, Which::Made)?;
    let entries = merged_entries(alloc, &sides)?;
    Ok(MergedDir { link, entries })
}

fn keep(dirs: &mut Vec<MergedDir>, dir: MergedDir) -> Result<(), AllocError>
    ensures { OnOk result (dirs.new.items ≡ dirs.old.items ++ dir ∷ []) }
{
    dirs.push(dir)?;
    Ok(())
}

// Puts what both sides changed in three directories, and keeps how the merged one is written.
fn go_down(
    alloc: Global,
    walk: &mut Progress,
    path: FsPath,
    lists: Listing,
) -> Result<(), ReadError>
    ensures opened { OnOk result (GoesDown (lists_value lists) path walk.old walk.new) }
    ensures total { AreBefore lists.home lists.base.items → OnOk result (total walk.new.todo.items < total walk.old.todo.items + weight lists.home) }
    ensures memory { IfErr result (λ e. e ≡ OutOfMemory) }
{
    let dir = open(alloc, &mut walk.todo, path, lists)?;
    keep(&mut walk.dirs, dir)?;
    Ok(())
}

// Keeps the lesser of two paths.
fn note(first: &mut Option<Found>, found: Found)
    ensures { first.new ≡ Some (least first.old found) }
{
    match first {
        None => *first = Some(found),
        Some(other) => match found.path.cmp(&other.path) {
            Ordering::Less => *other = found,
            _ => {}
        },
    }
}

// Looks at one path: it is noted where the merge goes no further; else what both sides changed in the three directories is put,
// and the merged one is kept.
fn step<B: Book, N: Own>(
    alloc: Global,
    book: &mut B,
    own: &N,
    base: RevNum,
    walk: &mut Progress,
    next: Pending,
) -> Result<(), ReadError>
    ensures told { (look : RevisionBytes) (top : ℕ) (see : Path → Point) → Knows (B.told book.old).revs top look → IsSeen look top (N.folder own.now) base see → IsUnderWay see (walk.old.todo.items ++ next ∷ []) walk.old.first walk.old.dirs.items → OnOk result (IsUnderWay see walk.new.todo.items walk.new.first walk.new.dirs.items) }
    ensures failure { IfErr result IsFailure }
    ensures total { OnOk result (total walk.new.todo.items < total walk.old.todo.items + weight_in next.three.base) }
    ensures kept { Keeps (B.told book.old) (B.told book.new) }
    ensures cause { HasCause (B.faults book.old) (B.faults book.new) result }
{
    let turn = turn_at(alloc, book, own, base, &next.three)?;
    match turn {
        Turn::Down(lists) => go_down(alloc, walk, next.path, lists),
        Turn::Halts(halt) => {
            let path = next.path;
            note(&mut walk.first, Found { path, halt });
            Ok(())
        }
    }
}

// The least path at or below those that are left at which the merge goes no further, and the directories that it goes through.
fn walk<B: Book, N: Own>(
    alloc: Global,
    book: &mut B,
    own: &N,
    base: RevNum,
    todo: Vec<Pending>,
) -> Result<Progress, ReadError>
    ensures told { (look : RevisionBytes) (top : ℕ) (see : Path → Point) → Knows (B.told book.old).revs top look → IsSeen look top (N.folder own.now) base see → IsWalk see todo.items → IfOk result (IsWalked see) }
    ensures failure { IfErr result IsFailure }
    ensures kept { Keeps (B.told book.old) (B.told book.new) }
    ensures cause { HasCause (B.faults book.old) (B.faults book.new) result }
{
    let mut walk = Progress {
        todo,
        first: None,
        dirs: Vec::new(alloc),
    };
    while let Some(next) = walk.todo.pop() {
        step(alloc, book, own, base, &mut walk, next)?;
    }
    Ok(walk)
}

fn root(id: NodeId) -> Option<Target>
    ensures { result ≡ Some (root_target id) }
{
    Some(Target {
        kind: Kind::Dir,
        id,
    })
}

fn three_roots(roots: &Roots) -> Three
    ensures { result ≡ root_three roots.now }
{
    Three {
        base: root(roots.base),
        head: root(roots.head),
        own: root(roots.own),
    }
}

// The first path below three roots at which the merge goes no further, and the directories that it goes through.
fn walk_below<B: Book, N: Own>(
    alloc: Global,
    book: &mut B,
    own: &N,
    base: RevNum,
    roots: &Roots,
) -> Result<Progress, ReadError>
    ensures told { (look : RevisionBytes) (top : ℕ) (see : Path → Point) → Knows (B.told book.old).revs top look → IsSeenFrom look top (N.folder own.now) base roots.now see → IfOk result (IsWalked see) }
    ensures failure { IfErr result IsFailure }
    ensures kept { Keeps (B.told book.old) (B.told book.new) }
    ensures cause { HasCause (B.faults book.old) (B.faults book.new) result }
{
    let three = three_roots(roots);
    let mut todo = Vec::new(alloc);
    if !three.is_changed() {
        return walk(alloc, book, own, base, todo);
    }
    let path = FsPath::root(alloc);
    match todo.push(Pending { path, three }) {
        Ok(()) => walk(alloc, book, own, base, todo),
        Err(_) => Err(ReadError::OutOfMemory),
    }
}

// The path of a clash, or what is wrong.
fn answer_of(found: Found) -> Result<Merge, ReadError>
    ensures { result ≡ answer_of found.path found.halt }
{
    let Found { path, halt } = found;
    match halt {
        Halt::Clash => Ok(Merge::Clash(path)),
        Halt::Wrong(wrong) => Err(ReadError::Wrong(wrong)),
    }
}

// The answer that a walk gives at its end.
fn answered(walk: Progress) -> Result<Merge, ReadError>
    ensures { result ≡ answered walk }
{
    let Progress {
        todo: _todo,
        first,
        dirs,
    } = walk;
    match first {
        None => Ok(Merge::Dirs(dirs)),
        Some(found) => answer_of(found),
    }
}

// What becomes of the transaction below three roots, or what is wrong there.
fn merge_below<B: Book, N: Own>(
    alloc: Global,
    book: &mut B,
    own: &N,
    base: RevNum,
    roots: &Roots,
) -> Result<Merge, ReadError>
    ensures told { (look : RevisionBytes) (top : ℕ) (see : Path → Point) → Knows (B.told book.old).revs top look → IsSeenFrom look top (N.folder own.now) base roots.now see → Answers (λ merge. merge) (MergeFrom see) result }
    ensures kept { Keeps (B.told book.old) (B.told book.new) }
    ensures cause { HasCause (B.faults book.old) (B.faults book.new) result }
{
    let walk = walk_below(alloc, book, own, base, roots)?;
    answered(walk)
}

fn roots_of(base: &NodeRev, head: &NodeRev, own: NodeId) -> Roots
    ensures { result ≡ record { base = base.now.id; head = head.now.id; own = own } }
{
    Roots {
        base: base.id,
        head: head.id,
        own,
    }
}

// What becomes of the transaction over the head, or what is wrong before; the roots are read first.
fn merge_of<B: Book, N: Own>(
    alloc: Global,
    book: &mut B,
    own: &N,
    base: RevNum,
    head: RevNum,
) -> Result<Merge, ReadError>
    ensures told { (look : RevisionBytes) (top : ℕ) (see : Path → Point) → Knows (B.told book.old).revs top look → base ≤ top → head ≤ top → Answers (λ merge. merge) (MergeOf look top (N.txn own.now) (N.folder own.now) base head see) result }
    ensures kept { Keeps (B.told book.old) (B.told book.new) }
    ensures cause { HasCause (B.faults book.old) (B.faults book.new) result }
{
    let x = root_of(alloc, book, base)?;
    let y = root_of(alloc, book, head)?;
    let mine = root_id(own.name());
    let roots = roots_of(&x.node, &y.node, mine);
    merge_below(alloc, book, own, base, &roots)
}

/// What becomes of a transaction over the base with a later revision: the first clash, in the order of paths, a prefix first; or
/// where nothing clashes the directories that the merge writes. Nothing is written.
///
/// Where the bytes of a root are wrong the answer is that, the base's first; then the first path decides at which the two
/// clash or something is wrong. Of what one side left as it is in the base nothing is read.
pub fn find_merge<B: Book, N: Own>(
    alloc: Global,
    book: &mut B,
    own: &N,
    base: RevNum,
    head: RevNum,
) -> Result<Merge, ReadError>
    // Whatever the bytes and the transaction's folder are, the answer is the one of what is seen there.
    ensures told { (look : RevisionBytes) (top : ℕ) (see : Path → Point) → Knows (B.told book.old).revs top look → base ≤ top → head ≤ top → Answers (λ merge. merge) (MergeOf look top (N.txn own.now) (N.folder own.now) base head see) result }
    // Where the folder holds a draft, over a history that the bytes show, it is the flat model's first clash, or the directories
    // that lead to the landing; and nothing is wrong.
    ensures draft { (look : RevisionBytes) (top : ℕ) (trees : ℕ → TreeFunction) (tree : TreeFunction) (marks : List Mark) → Knows (B.told book.old).revs top look → ShowTrees look top trees → base ≤ head → head ≤ top → IsTransaction trees top base tree marks → (d : IsDraftOf look trees top base (N.txn own.now) (N.folder own.now) tree marks) → FindsMerge look top trees base head d.shows.own tree marks result }
    ensures kept { Keeps (B.told book.old) (B.told book.new) }
    ensures cause { HasCause (B.faults book.old) (B.faults book.new) result }
{
    merge_of(alloc, book, own, base, head)
}
