//! The text of the history of a path.
//!
//! A node-revision names its predecessor, which stood at the same path, unless something was copied to the path since: then
//! the copy's own node-revision names its source. So each point costs a node-revision, and each copy two paths.
ghost use Rattle.std.specs.Prelude.{◌≡◌, ◌≤◌, ◌<◌, ◌++◌, ℕ, List, [], OnOk, IfOk, IfSome, option_map, codes, decimal};
ghost use Rattle.fsfs_base.specs.Paths.{Path, path_text};
ghost use Rattle.fsfs_revision.specs.Told.{RevisionBytes, Knows, Keeps};
ghost use Rattle.fsfs_revision.specs.Damage.Causes.{HasCause};
ghost use Rattle.fsfs_dag.specs.Views.{home_of};
ghost use Rattle.fsfs_revision.specs.Shows.Chains.{copy_root_of};
ghost use Rattle.fsfs_revision.specs.Damage.Readings.{Answers};
ghost use Rattle.fsfs_revision.specs.Shows.Reading.{MetAt, Stands};
ghost use Rattle.fsfs_revision.specs.Shows.Shown.{copied_from, source_by};
ghost use Rattle.fsfs_revision.specs.Ancestry.CopyRoots.{later_root};
ghost use Rattle.fsfs_stands.specs.Steps.{point_rev, PointAt, lead_of, OfSource, AcrossCopy, HistoryStep};
ghost use Rattle.fsfs_tree.specs.HistoryTexts.{right};
ghost use Rattle.fsfs_stands.specs.HistoryTexts.{line_of, HistoryText};
ghost use Rattle.fsfs_history.specs.Points.{root_value, point_value, lead_value, way_met, IsRootedWay, IsWithin, IsWayWithin, IsPointFound, next_line, BehindText, HistoryFrom, LeadsLower, height};
ghost use Rattle.fsfs_look.specs.Walks.{Walks};
ghost use Rattle.fsfs_look.specs.Written.{Writes, HasDiskCause, HasSinkCause};

use fsfs_base::{FsPath, Kind, RevNum, Sink};
use fsfs_dag::{PlacedNode, child_named, named_node, root_of};
use fsfs_look::{LookError, put_spaces, write_full, write_last};
use fsfs_noderev::NodeId;
use fsfs_revision::{Book, ReadError};
use fsfs_stands::LookFault;
use itoa::Buffer;
use std::alloc::{AllocError, Global};

/// The revision and path of a copy.
#[derive(Drop)]
pub(crate) struct CopyPlace {
    rev: RevNum,
    path: FsPath,
}

/// A point of a history: the path, the node that stood there, and the latest copy by which it came there.
#[derive(Drop)]
pub(crate) struct HistoryPoint {
    path: FsPath,
    found: PlacedNode,
    root: CopyPlace,
}

/// What stands at a path.
#[derive(Drop)]
pub(crate) enum Way {
    Point(HistoryPoint),
    /// So many names from the root lead to nothing.
    Absent(usize),
    /// So many names lead to a file, and more follow.
    File(usize),
}

/// Where a point leads.
#[derive(Clone, Copy)]
pub(crate) enum Leading {
    /// It was new there.
    Nowhere,
    /// To its predecessor, at the same path.
    Back(NodeId),
    /// To what was copied.
    Across,
}

// The revision of a node's copy root.
fn root_rev(found: &PlacedNode) -> RevNum
    ensures value { result ≡ (copy_root_of found.now.node).0 }
    ensures before { result ≤ (home_of found.now.node).rev }
{
    match &found.node.copy_root {
        None => found.place().rev,
        Some(root) => root.rev.unwrap_or(RevNum::ZERO),
    }
}

fn copy_root(found: &PlacedNode) -> Result<CopyPlace, AllocError>
    ensures value { IfOk result (λ root. root_value root ≡ copy_root_of found.now.node) }
    ensures before { IfOk result (λ root. root.rev ≤ (home_of found.now.node).rev) }
{
    let rev = root_rev(found);
    let path = match &found.node.copy_root {
        None => found.node.created_path.clone()?,
        Some(root) => root.path.clone()?,
    };
    Ok(CopyPlace { rev, path })
}

// The later of a copy root and that of what stands below; of the same revision the lower one.
fn later(root: CopyPlace, below: &PlacedNode) -> Result<CopyPlace, AllocError>
    ensures value { IfOk result (λ last. root_value last ≡ later_root (root_value root) (copy_root_of below.now.node)) }
    ensures within { (top : ℕ) → root.rev ≤ top → (home_of below.now.node).rev ≤ top → IfOk result (λ last. last.rev ≤ top) }
{
    if root_rev(below) < root.rev {
        return Ok(root);
    }
    copy_root(below)
}

// Walks from the root down the names.
fn way_to<B: Book>(
    alloc: Global,
    book: &mut B,
    rev: RevNum,
    path: &FsPath,
) -> Result<Way, ReadError>
    ensures told { (look : RevisionBytes) → Knows (B.told book.old).revs rev look → Answers way_met (MetAt look rev path.now) result }
    ensures rooted { (look : RevisionBytes) → Knows (B.told book.old).revs rev look → IfOk result (IsRootedWay look rev path.now) }
    ensures within { IfOk result (IsWayWithin rev) }
    ensures kept { Keeps (B.told book.old) (B.told book.new) }
    ensures cause { HasCause (B.faults book.old) (B.faults book.new) result }
{
    let mut node = root_of(alloc, book, rev)?;
    let mut root = copy_root(&node)?;
    let mut depth = 0usize;
    for name in path.names() {
        match node.node.kind {
            Kind::File => return Ok(Way::File(depth)),
            Kind::Dir => {}
        }
        match child_named(alloc, book, &node, name)? {
            None => return Ok(Way::Absent(depth + 1)),
            Some(child) => {
                root = later(root, &child)?;
                node = child;
            }
        }
        depth += 1;
    }
    let path = path.clone()?;
    Ok(Way::Point(HistoryPoint {
        path,
        found: node,
        root,
    }))
}

fn leads(at: &HistoryPoint) -> Leading
    ensures lead { lead_value result ≡ lead_of (point_value at.now) }
    ensures lower { LeadsLower (home_of at.now.found.node) result }
{
    let home = at.found.place();
    let own = home.rev;
    match at.found.node.predecessor {
        None => {
            if own < at.root.rev {
                Leading::Across
            } else {
                Leading::Nowhere
            }
        }
        Some(id) => {
            if at.root.rev < own {
                Leading::Back(id)
            } else {
                Leading::Across
            }
        }
    }
}

// What a copy at a path copied to another.
fn source_of(
    root: &FsPath,
    path: &FsPath,
    copy: &PlacedNode,
) -> Result<Option<(RevNum, FsPath)>, AllocError>
    ensures value { IfOk result (λ source. source ≡ copied_from root.now path.now copy.now.node.copy_from) }
    ensures lower { IfOk result (λ source. IfSome source (λ from. from.0 < (home_of copy.now.node).rev)) }
{
    match &copy.node.copy_from {
        None => Ok(None),
        Some(source) => {
            if root.covers(path) {
                Ok(Some((source.rev, path.moved(root.depth(), &source.path)?)))
            } else {
                Ok(None)
            }
        }
    }
}

// The point at a path of a revision, if something stands there.
fn point_at<B: Book>(
    alloc: Global,
    book: &mut B,
    rev: RevNum,
    path: &FsPath,
) -> Result<Option<HistoryPoint>, ReadError>
    ensures told { (look : RevisionBytes) → Knows (B.told book.old).revs rev look → Answers (option_map point_value) (PointAt look rev path.now) result }
    ensures within { IfOk result (λ at. IfSome at (IsWithin rev)) }
    ensures kept { Keeps (B.told book.old) (B.told book.new) }
    ensures cause { HasCause (B.faults book.old) (B.faults book.new) result }
{
    let way = way_to(alloc, book, rev, path)?;
    match way {
        Way::Point(at) => Ok(Some(at)),
        Way::Absent(_) => Ok(None),
        Way::File(_) => Ok(None),
    }
}

// The point at what a copy copied to a point's path.
fn from_copy<B: Book>(
    alloc: Global,
    book: &mut B,
    at: &HistoryPoint,
    copy: &PlacedNode,
) -> Result<Option<HistoryPoint>, ReadError>
    ensures told { (top : ℕ) (look : RevisionBytes) → Knows (B.told book.old).revs top look → (home_of copy.now.node).rev ≤ top
        → Answers (option_map point_value) (OfSource look (source_by at.now.root.path at.now.path (Stands copy.now.node))) result }
    ensures lower { IfOk result (λ next. IfSome next (λ to. (below : ℕ) × (below < (home_of copy.now.node).rev) × IsWithin below to)) }
    ensures kept { Keeps (B.told book.old) (B.told book.new) }
    ensures cause { HasCause (B.faults book.old) (B.faults book.new) result }
{
    let source = source_of(&at.root.path, &at.path, copy)?;
    match source {
        None => Ok(None),
        Some(from) => point_at(alloc, book, from.0, &from.1),
    }
}

// The point before one that came by a copy: at what was copied.
fn across<B: Book>(
    alloc: Global,
    book: &mut B,
    at: &HistoryPoint,
) -> Result<Option<HistoryPoint>, ReadError>
    ensures told { (top : ℕ) (look : RevisionBytes) → Knows (B.told book.old).revs top look → at.now.root.rev ≤ top → Answers (option_map point_value) (AcrossCopy look (point_value at.now)) result }
    ensures lower { IfOk result (λ next. IfSome next (λ to. (below : ℕ) × (below < at.now.root.rev) × IsWithin below to)) }
    ensures kept { Keeps (B.told book.old) (B.told book.new) }
    ensures cause { HasCause (B.faults book.old) (B.faults book.new) result }
{
    let way = way_to(alloc, book, at.root.rev, &at.root.path)?;
    match way {
        Way::Point(copy) => from_copy(alloc, book, at, &copy.found),
        Way::Absent(_) => Ok(None),
        Way::File(_) => Ok(None),
    }
}

// The point before this one, if there is one.
fn step_back<B: Book>(
    alloc: Global,
    book: &mut B,
    at: HistoryPoint,
) -> Result<Option<HistoryPoint>, ReadError>
    ensures told { (top : ℕ) (look : RevisionBytes) → Knows (B.told book.old).revs top look → IsWithin top at → Answers (option_map point_value) (HistoryStep look (point_value at)) result }
    ensures within { (top : ℕ) → IsWithin top at → IfOk result (λ next. IfSome next (IsWithin top)) }
    ensures smaller { IfOk result (λ next. IfSome next (λ to. height to < height at)) }
    ensures kept { Keeps (B.told book.old) (B.told book.new) }
    ensures cause { HasCause (B.faults book.old) (B.faults book.new) result }
{
    match leads(&at) {
        Leading::Nowhere => Ok(None),
        Leading::Back(id) => {
            let found = named_node(alloc, book, &id)?;
            Ok(Some(HistoryPoint {
                path: at.path,
                found,
                root: at.root,
            }))
        }
        Leading::Across => across(alloc, book, &at),
    }
}

fn point_rev(at: &HistoryPoint) -> RevNum
    ensures { result ≡ point_rev (point_value at.now) }
{
    let own = at.found.place().rev;
    if own < at.root.rev { at.root.rev } else { own }
}

// Puts the number of a revision at the right of eight places.
fn put_right(lines: &mut Vec<u8>, rev: RevNum) -> Result<(), AllocError>
    ensures { OnOk result (lines.new.items ≡ lines.old.items ++ right (decimal rev)) }
{
    let mut buffer = Buffer::new();
    let digits = buffer.format(rev.get());
    put_spaces(lines, 8usize.saturating_sub(digits.len()))?;
    lines.extend_from_slice(digits.as_bytes())?;
    Ok(())
}

// Puts a path between the blanks behind a revision and the end of the line.
fn put_path(lines: &mut Vec<u8>, path: &FsPath) -> Result<(), AllocError>
    ensures { OnOk result (lines.new.items ≡ lines.old.items ++ codes "   " ++ path_text path.now ++ codes "\n") }
{
    lines.extend_from_slice(b"   ")?;
    path.put_text(lines)?;
    lines.push(b'\n')?;
    Ok(())
}

// Puts the line of a point behind the lines.
fn put_point(lines: &mut Vec<u8>, at: &HistoryPoint) -> Result<(), AllocError>
    ensures { OnOk result (lines.new.items ≡ lines.old.items ++ line_of (point_value at.now)) }
{
    put_right(lines, point_rev(at))?;
    put_path(lines, &at.path)?;
    Ok(())
}

// Puts the line of the next point, if there is one.
fn put_next(lines: &mut Vec<u8>, next: &Option<HistoryPoint>) -> Result<(), AllocError>
    ensures { OnOk result (lines.new.items ≡ lines.old.items ++ next_line next.now) }
{
    match next {
        None => Ok(()),
        Some(at) => put_point(lines, at),
    }
}

// Writes what is behind the line of a point, but for the last lines.
fn write_behind<B: Book, S: Sink>(
    alloc: Global,
    book: &mut B,
    at: HistoryPoint,
    lines: &mut Vec<u8>,
    sink: &mut S,
) -> Result<(), LookError>
    ensures told { (top : ℕ) (look : RevisionBytes) → Knows (B.told book.old).revs top look → IsWithin top at
        → Walks (BehindText look (point_value at)) lines.old.items lines.new.items (S.written sink.old) (S.written sink.new) result }
    ensures kept { Keeps (B.told book.old) (B.told book.new) }
    ensures cause { HasDiskCause (B.faults book.old) (B.faults book.new) result }
    ensures sink { HasSinkCause (S.faults sink.old) (S.faults sink.new) result }
{
    let mut left = Some(at);
    while let Some(point) = left {
        write_full(sink, lines)?;
        left = step_back(alloc, book, point)?;
        put_next(lines, &left)?;
    }
    Ok(())
}

// Writes the history of a point, but for the last lines.
fn write_history<B: Book, S: Sink>(
    alloc: Global,
    book: &mut B,
    at: HistoryPoint,
    lines: &mut Vec<u8>,
    sink: &mut S,
) -> Result<(), LookError>
    requires lines { lines.old.items ≡ [] }
    ensures told { (top : ℕ) (look : RevisionBytes) → Knows (B.told book.old).revs top look → IsWithin top at
        → Walks (HistoryFrom look (point_value at)) [] lines.new.items (S.written sink.old) (S.written sink.new) result }
    ensures kept { Keeps (B.told book.old) (B.told book.new) }
    ensures cause { HasDiskCause (B.faults book.old) (B.faults book.new) result }
    ensures sink { HasSinkCause (S.faults sink.old) (S.faults sink.new) result }
{
    lines.extend_from_slice(b"REVISION   PATH\n--------   ----\n")?;
    put_point(lines, &at)?;
    write_behind(alloc, book, at, lines, sink)
}

// The point at a path of a revision.
fn point_found<B: Book>(
    alloc: Global,
    book: &mut B,
    rev: RevNum,
    path: &FsPath,
) -> Result<HistoryPoint, LookError>
    ensures told { (look : RevisionBytes) → Knows (B.told book.old).revs rev look → IsPointFound look rev path.now result }
    ensures within { IfOk result (IsWithin rev) }
    ensures kept { Keeps (B.told book.old) (B.told book.new) }
    ensures cause { HasDiskCause (B.faults book.old) (B.faults book.new) result }
    ensures quiet { (faults : ℕ) → HasSinkCause faults faults result }
{
    match way_to(alloc, book, rev, path) {
        Ok(Way::Point(at)) => Ok(at),
        Ok(Way::Absent(names)) => Err(LookError::Fault(LookFault::NotFound { names })),
        Ok(Way::File(names)) => Err(LookError::Fault(LookFault::NotDir { names })),
        Err(error) => Err(LookError::from(error)),
    }
}

/// Writes the history of a path from a revision on, newest first: a heading, and a line for each revision in which it, or
/// anything below it, was changed, with the path that it then had. Where something is wrong with the bytes, what comes before
/// it is written.
pub fn history_text<B: Book, S: Sink>(
    alloc: Global,
    book: &mut B,
    rev: RevNum,
    path: &FsPath,
    sink: &mut S,
) -> Result<(), LookError>
    ensures told { (look : RevisionBytes) → Knows (B.told book.old).revs rev look → Writes (HistoryText look rev path.now) (S.written sink.old) (S.written sink.new) result }
    ensures kept { Keeps (B.told book.old) (B.told book.new) }
    ensures cause { HasDiskCause (B.faults book.old) (B.faults book.new) result }
    ensures sink { HasSinkCause (S.faults sink.old) (S.faults sink.new) result }
{
    let at = point_found(alloc, book, rev, path)?;
    let mut lines = Vec::new(alloc);
    let walked = write_history(alloc, book, at, &mut lines, sink);
    write_last(sink, &mut lines, walked)
}
