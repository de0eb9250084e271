//! Node-revisions and what may be wrong with their text.
ghost use Rattle.std.specs.Prelude.{◌≡◌, IfOk};

use crate::node_id::NodeId;
use crate::rep::Contents;
use fsfs_base::{FsPath, Kind, RevNum};
use std::alloc::AllocError;

/// The revision and path that a node was copied from.
#[derive(Debug, Drop)]
pub struct CopySource {
    pub rev: RevNum,
    pub path: FsPath,
}

/// A copy of what a node was copied from, if it was.
pub fn same_source(source: &Option<CopySource>) -> Result<Option<CopySource>, AllocError>
    ensures { IfOk result (λ same. same ≡ source.now) }
{
    match source {
        None => Ok(None),
        Some(source) => Ok(Some(CopySource {
            rev: source.rev,
            path: source.path.clone()?,
        })),
    }
}

/// The revision and path of the copy that a node came by; no revision stands for the node-revision's own transaction.
#[derive(Debug, Drop)]
pub struct CopyRoot {
    pub rev: Option<RevNum>,
    pub path: FsPath,
}

/// A node-revision.
#[derive(Debug, Drop)]
pub struct NodeRev {
    pub id: NodeId,
    pub kind: Kind,
    /// The node-revision that this one came of.
    pub predecessor: Option<NodeId>,
    /// How many predecessors it has, one before the other; 2^64 - 1 stands for any greater number too.
    pub count: u64,
    /// A file's text or a directory's entries; none: it is empty.
    pub text: Option<Contents>,
    /// Its properties; none: it has none.
    pub props: Option<Contents>,
    /// The path at which it was made.
    pub created_path: FsPath,
    pub copy_from: Option<CopySource>,
    /// None: its own revision and created path.
    pub copy_root: Option<CopyRoot>,
    /// Whether it is a transaction's root that nothing has changed yet.
    pub is_fresh_txn_root: bool,
    /// How many nodes at and below it have the property `svn:mergeinfo`; none means 0.
    pub mergeinfo_count: Option<u64>,
    /// Whether it has that property itself.
    pub has_mergeinfo: bool,
}

/// A field of a node-revision, by the order of the lines.
#[derive(Clone, Copy, Debug, PartialEq, Eq)]
pub enum Field {
    Id,
    NodeKind,
    Predecessor,
    Count,
    Text,
    Props,
    CreatedPath,
    CopiedFrom,
    CopiedRoot,
    FreshTxnRoot,
    MergeinfoCount,
    MergeinfoHere,
}

/// What is wrong with a node-revision's text.
#[derive(Clone, Copy, Debug, PartialEq, Eq)]
pub enum Which {
    /// The empty line came, and this field had not.
    Missing(Field),
    /// A second line of this field.
    Twice(Field),
    /// The field's value is not in its form.
    BadValue(Field),
    /// A line that isn't a name, a colon, a space and a value.
    BadLine,
    /// The bytes end, or the limit of 65,536 is reached, before the empty line.
    NoEnd,
}

/// A node-revision's text is refused: what is wrong, and where the first refused line begins. For `NoEnd` and `Missing`
/// it is how many bytes were read.
#[derive(Clone, Copy)]
pub struct NodeFault {
    pub at: usize,
    pub which: Which,
}
