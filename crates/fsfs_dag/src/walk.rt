//! The node at a path.
ghost use Rattle.std.specs.Prelude.{◌≡◌, ◌≤◌, IfOk, IfSome, option_map};
ghost use Rattle.fsfs_base.specs.declared.kind.Kind.TheVariants.{Dir};
ghost use Rattle.fsfs_revision.specs.Told.{RevisionBytes, Knows, Keeps};
ghost use Rattle.fsfs_revision.specs.Damage.Readings.{Answers};
ghost use Rattle.fsfs_revision.specs.Shows.Reading.{ChildOf, MetAt};
ghost use Rattle.fsfs_revision.specs.Damage.Causes.{HasCause};
ghost use Rattle.fsfs_dag.specs.Views.{home_of, met_value};

use crate::directory::{entries, entry_named};
use crate::node::PlacedNode;
use crate::reading::{child_of, root_of};
use fsfs_base::{FsPath, Kind, RevNum};
use fsfs_revision::{Book, ReadError};
use std::alloc::Global;

/// What stands at a path.
#[derive(Drop)]
pub enum Met {
    Node(PlacedNode),
    /// So many names from the root lead to nothing.
    Absent(usize),
    /// So many names lead to a file, and more follow.
    File(usize),
}

/// The child of a name in a directory, if it has one.
pub fn child_named<B: Book>(
    alloc: Global,
    book: &mut B,
    dir: &PlacedNode,
    name: &str,
) -> Result<Option<PlacedNode>, ReadError>
    requires { dir.now.node.kind ≡ Dir }
    ensures told { (look : RevisionBytes) → Knows (B.told book.old).revs (home_of dir.now.node).rev look → Answers (option_map (λ found. found.node)) (ChildOf look dir.now.node name.now) result }
    ensures below { IfOk result (λ child. IfSome child (λ found. (home_of found.node).rev ≤ (home_of dir.now.node).rev)) }
    ensures kept { Keeps (B.told book.old) (B.told book.new) }
    ensures cause { HasCause (B.faults book.old) (B.faults book.new) result }
{
    let all = entries(alloc, book, dir)?;
    match entry_named(&all, name) {
        None => Ok(None),
        Some(entry) => {
            let child = child_of(alloc, book, entry)?;
            Ok(Some(child))
        }
    }
}

/// What stands at a path of a revision. A path of k names costs k + 1 node-revisions and k directories, whatever the number
/// of revisions. Where something is wrong, the answer is what the walk from the root meets first.
pub fn node_at<B: Book>(
    alloc: Global,
    book: &mut B,
    rev: RevNum,
    path: &FsPath,
) -> Result<Met, ReadError>
    ensures told { (look : RevisionBytes) → Knows (B.told book.old).revs rev look → Answers met_value (MetAt look rev path.now) result }
    ensures kept { Keeps (B.told book.old) (B.told book.new) }
    ensures cause { HasCause (B.faults book.old) (B.faults book.new) result }
{
    let mut node = root_of(alloc, book, rev)?;
    let mut depth = 0usize;
    for name in path.names() {
        match node.node.kind {
            Kind::File => return Ok(Met::File(depth)),
            Kind::Dir => {}
        }
        match child_named(alloc, book, &node, name)? {
            None => return Ok(Met::Absent(depth + 1)),
            Some(child) => node = child,
        }
        depth += 1;
    }
    Ok(Met::Node(node))
}
