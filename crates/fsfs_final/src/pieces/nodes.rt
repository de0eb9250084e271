//! Node-revisions, each behind its lists.
ghost use Rattle.std.specs.Prelude.{Option, IfOk, option_map};
ghost use Rattle.fsfs_revision.specs.Shows.Reading.{Pairs};
ghost use Rattle.fsfs_noderev.specs.Writing.{HasText};
ghost use Rattle.fsfs_final.specs.Pieces.Lists.{AreTextOf};
ghost use Rattle.fsfs_final.specs.Pieces.Nodes.{IsNodePut};

use crate::pieces::finishing::finish;
use crate::pieces::lists::{put_contents, text_of};
use crate::pieces::offsets::end_at;
use fsfs_base::{Pairs, RevNum};
use fsfs_noderev::{NodeRev, write_noderev};
use std::alloc::{AllocError, Global};

/// Puts a transaction's node-revision at the end as it stands in the revision, and answers it: the list of its entries, where
/// they stand in a file of its own (the text of that list is given), the list of its properties, where they do, and its lines, with
/// final ids. The buffer begins at the offset `start` of the revision.
///
/// An `Err` is for an offset that there is no number for, too. (The libsvn_fs_fs structure file, "Revision file format"; the order
/// of the parts is this project's profile.)
pub fn put_node(
    alloc: Global,
    out: &mut Vec<u8>,
    rev: RevNum,
    start: u64,
    node: &NodeRev,
    entries: &Option<Vec<u8>>,
    props: &Option<Pairs>,
) -> Result<NodeRev, AllocError>
    requires { HasText node.now }
    ensures { (list : Option Pairs) → AreTextOf list (option_map (λ v. v.items) entries.now) → IfOk result (IsNodePut rev start out.old.items out.new.items node.now list props.now) }
{
    let props = text_of(alloc, props)?;
    let text = put_contents(out, rev, start, &node.text, entries)?;
    let list = put_contents(out, rev, start, &node.props, &props)?;
    let offset = end_at(start, out.len())?;
    let done = finish(rev, offset, text, list, node)?;
    let lines = write_noderev(alloc, &done)?;
    out.extend_from_slice(&lines)?;
    Ok(done)
}
