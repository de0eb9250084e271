//! What a merge finds at a path that both sides changed.
ghost use Rattle.std.specs.Prelude.{◌≡◌, ◌≤◌, ℕ, Some, Option, IfOk, IfErr, IfSome, option_map};
ghost use Rattle.fsfs_base.specs.declared.kind.Kind.TheVariants.{Dir};
ghost use Rattle.fsfs_revision.specs.Told.{RevisionBytes, Knows, Keeps};
ghost use Rattle.fsfs_revision.specs.Damage.Readings.{Answers};
ghost use Rattle.fsfs_revision.specs.Damage.Causes.{HasCause};
ghost use Rattle.fsfs_dag.specs.Views.{home_of, AreBefore};
ghost use Rattle.fsfs_revision.specs.Shows.Reading.{offset_of};
ghost use Rattle.fsfs_merge.specs.Clash.Dirs.{dirs_in};
ghost use Rattle.fsfs_merge.specs.Clash.Readings.{IsIn, AreIn, AreDirsIn, ListsOf, TurnAt, LookAt};
ghost use Rattle.fsfs_merge.specs.Clash.Turning.{lists_value, IsFailure, IsHome, IsTurn, IsTurnIn, turn_of, turned, wrong_turn};

use crate::clash::facts::{are_merged, is_dir};
use crate::clash::merged::{Link, link_of};
use crate::clash::readings::{entries_of, facts_in};
use crate::clash::three::Three;
use fsfs_base::RevNum;
use fsfs_dag::{DirEntry, PlacedNode, entries, named_node};
use fsfs_draft::Own;
use fsfs_noderev::NodeId;
use fsfs_revision::{Book, ReadError, RevOffset, Wrong};
use std::alloc::Global;

/// The ids of three directories.
#[derive(Clone, Copy)]
pub(crate) struct Dirs {
    pub base: NodeId,
    pub head: NodeId,
    pub own: NodeId,
}

// The three ids, where all three are directories.
fn as_dirs(three: &Three) -> Option<Dirs>
    ensures { result ≡ dirs_in three.now }
{
    let Some(base) = three.base else {
        return None;
    };
    let Some(head) = three.head else {
        return None;
    };
    let Some(own) = three.own else {
        return None;
    };
    if is_dir(base.kind) && is_dir(head.kind) && is_dir(own.kind) {
        Some(Dirs {
            base: base.id,
            head: head.id,
            own: own.id,
        })
    } else {
        None
    }
}

/// The entries of three directories, where the base's stands, and what the merged one goes on from.
#[derive(Drop)]
pub(crate) struct Listing {
    pub home: RevOffset,
    pub link: Link,
    pub base: Vec<DirEntry>,
    pub head: Vec<DirEntry>,
    pub own: Vec<DirEntry>,
}

// The entries of three directories that are merged.
fn lists_of<B: Book, N: Own>(
    alloc: Global,
    book: &mut B,
    own: &N,
    x: &PlacedNode,
    y: &PlacedNode,
    id: &NodeId,
) -> Result<Listing, ReadError>
    requires base { x.now.node.kind ≡ Dir }
    requires head { y.now.node.kind ≡ Dir }
    ensures told { (look : RevisionBytes) (top : ℕ) → Knows (B.told book.old).revs top look → (home_of x.now.node).rev ≤ top → (home_of y.now.node).rev ≤ top → IsIn top (N.folder own.now) id.now → Answers lists_value (ListsOf look (N.folder own.now) x.now.node y.now.node id.now) result }
    ensures home { IfOk result (λ lists. lists.home ≡ home_of x.now.node) }
    ensures before { IfOk result (λ lists. AreBefore (home_of x.now.node) lists.base.items) }
    ensures kept { Keeps (B.told book.old) (B.told book.new) }
    ensures cause { HasCause (B.faults book.old) (B.faults book.new) result }
{
    let home = x.place();
    let link = link_of(&y.node, id);
    let base = entries(alloc, book, x)?;
    let head = entries(alloc, book, y)?;
    let own = entries_of(alloc, book, own, id)?;
    Ok(Listing {
        home,
        link,
        base,
        head,
        own,
    })
}

// The entries of three directories; none: they are not merged.
fn opened<B: Book, N: Own>(
    alloc: Global,
    book: &mut B,
    own: &N,
    rev: RevNum,
    dirs: &Dirs,
) -> Result<Option<Listing>, ReadError>
    ensures told { (look : RevisionBytes) (top : ℕ) → Knows (B.told book.old).revs top look → AreIn top (N.folder own.now) dirs.now → Answers (option_map lists_value) (TurnAt look (N.folder own.now) rev dirs.now) result }
    ensures home { IfOk result (λ o. IfSome o (λ lists. lists.home ≡ offset_of dirs.now.base.place)) }
    ensures before { IfOk result (λ o. IfSome o (λ lists. AreBefore (offset_of dirs.now.base.place) lists.base.items)) }
    ensures kept { Keeps (B.told book.old) (B.told book.new) }
    ensures cause { HasCause (B.faults book.old) (B.faults book.new) result }
{
    let base = named_node(alloc, book, &dirs.base)?;
    let head = named_node(alloc, book, &dirs.head)?;
    let mine = facts_in(alloc, book, own, &dirs.own)?;
    if !are_merged(rev, &base.node, &head.node, &mine) {
        return Ok(None);
    }
    let lists = lists_of(alloc, book, own, &base, &head, &dirs.own)?;
    Ok(Some(lists))
}

// The entries of the three directories at a path; none: there are no three, or they are not merged.
fn look_at<B: Book, N: Own>(
    alloc: Global,
    book: &mut B,
    own: &N,
    rev: RevNum,
    three: &Three,
) -> Result<Option<Listing>, ReadError>
    ensures told { (look : RevisionBytes) (top : ℕ) → Knows (B.told book.old).revs top look → AreDirsIn top (N.folder own.now) (dirs_in three.now) → Answers (option_map lists_value) (LookAt look (N.folder own.now) rev (dirs_in three.now)) result }
    ensures base { IfOk result (λ o. IfSome o (λ lists. IsHome lists three.now.base)) }
    ensures kept { Keeps (B.told book.old) (B.told book.new) }
    ensures cause { HasCause (B.faults book.old) (B.faults book.new) result }
{
    match as_dirs(three) {
        None => Ok(None),
        Some(dirs) => opened(alloc, book, own, rev, &dirs),
    }
}

/// Why a merge goes no further at a path.
#[derive(Clone, Copy)]
pub(crate) enum Halt {
    Clash,
    /// What is wrong with the bytes there.
    Wrong(Wrong),
}

/// What a merge finds at a path.
#[derive(Drop)]
pub(crate) enum Turn {
    Down(Listing),
    Halts(Halt),
}

// What the entries of three directories mean; none: they are not merged.
fn turn_of(lists: Option<Listing>) -> Turn
    ensures { result ≡ turn_of lists }
{
    match lists {
        None => Turn::Halts(Halt::Clash),
        Some(lists) => Turn::Down(lists),
    }
}

// What is wrong is found at a path; a failure is none of a path.
fn wrong_turn(error: ReadError) -> Result<Turn, ReadError>
    ensures { result ≡ wrong_turn error }
{
    match error {
        ReadError::Wrong(wrong) => Ok(Turn::Halts(Halt::Wrong(wrong))),
        ReadError::OutOfMemory => Err(ReadError::OutOfMemory),
        ReadError::DiskFault => Err(ReadError::DiskFault),
    }
}

// What the reading of three directories means.
fn turned(read: Result<Option<Listing>, ReadError>) -> Result<Turn, ReadError>
    ensures { result ≡ turned read }
{
    match read {
        Ok(lists) => Ok(turn_of(lists)),
        Err(error) => wrong_turn(error),
    }
}

/// What a merge finds at a path.
pub(crate) fn turn_at<B: Book, N: Own>(
    alloc: Global,
    book: &mut B,
    own: &N,
    rev: RevNum,
    three: &Three,
) -> Result<Turn, ReadError>
    ensures told { (look : RevisionBytes) (top : ℕ) → Knows (B.told book.old).revs top look → AreDirsIn top (N.folder own.now) (dirs_in three.now) → IfOk result (IsTurn (LookAt look (N.folder own.now) rev (dirs_in three.now))) }
    ensures failure { IfErr result IsFailure }
    ensures base { IfOk result (IsTurnIn three.now.base) }
    ensures kept { Keeps (B.told book.old) (B.told book.new) }
    ensures cause { HasCause (B.faults book.old) (B.faults book.new) result }
{
    let read = look_at(alloc, book, own, rev, three);
    turned(read)
}
