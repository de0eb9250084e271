//! The block of properties.
ghost use Rattle.std.specs.Prelude.{◌≡◌, ◌++◌, OnOk, IfOk, option_map};
ghost use Rattle.fsfs_revision.specs.Damage.Causes.{HasCause};
ghost use Rattle.fsfs_revision.specs.Damage.Readings.{Answers};
ghost use Rattle.fsfs_revision.specs.Told.{RevisionBytes, Knows, Keeps};
ghost use Rattle.fsfs_revision.specs.Shows.Reading.{PropsOf};
ghost use Rattle.fsfs_dag.specs.Views.{home_of};
ghost use Rattle.fsfs_dump.specs.Records.{props_block, revision_text};
ghost use Rattle.fsfs_dump.specs.Readings.{IfSet};
ghost use Rattle.fsfs_dump.specs.Views.{block_value};

use crate::headers::put_number;
use fsfs_base::{Pairs, RevNum};
use fsfs_dag::{PlacedNode, props};
use fsfs_layout::put_pairs;
use fsfs_revision::{Book, ReadError};
use std::alloc::{AllocError, Global};

/// The block of these properties.
pub(crate) fn block_of(alloc: Global, pairs: &Pairs) -> Result<Vec<u8>, AllocError>
    ensures { IfOk result (λ block. block.items ≡ props_block pairs.now) }
{
    let mut block = Vec::new(alloc);
    put_pairs(&mut block, pairs)?;
    block.extend_from_slice(b"PROPS-END\n")?;
    Ok(block)
}

/// The properties of a node, where they were set.
pub(crate) fn props_set<B: Book>(
    alloc: Global,
    book: &mut B,
    set: bool,
    node: &PlacedNode,
) -> Result<Option<Pairs>, ReadError>
    ensures told { (look : RevisionBytes) → Knows (B.told book.old).revs (home_of node.now.node).rev look → Answers (λ pairs. pairs) (IfSet set (PropsOf look node.now.node)) result }
    ensures kept { Keeps (B.told book.old) (B.told book.new) }
    ensures cause { HasCause (B.faults book.old) (B.faults book.new) result }
{
    if !set {
        return Ok(None);
    }
    match props(alloc, book, node) {
        Ok(pairs) => Ok(Some(pairs)),
        Err(error) => Err(error),
    }
}

/// The block of these properties, where there are any.
pub(crate) fn block_set(alloc: Global, pairs: &Option<Pairs>) -> Result<Option<Vec<u8>>, AllocError>
    ensures { IfOk result (λ block. block_value block ≡ option_map props_block pairs.now) }
{
    match pairs {
        None => Ok(None),
        Some(pairs) => Ok(Some(block_of(alloc, pairs)?)),
    }
}

/// Puts the record of a revision whose properties have this block.
pub(crate) fn put_revision(lines: &mut Vec<u8>, rev: RevNum, block: &[u8]) -> Result<(), AllocError>
    ensures { OnOk result (lines.new.items ≡ lines.old.items ++ revision_text rev block.now) }
{
    put_number(lines, b"Revision-number", rev.get() as u64)?;
    put_number(lines, b"Prop-content-length", block.len() as u64)?;
    put_number(lines, b"Content-length", block.len() as u64)?;
    lines.extend_from_slice(b"\n")?;
    lines.extend_from_slice(block)?;
    lines.extend_from_slice(b"\n")?;
    Ok(())
}
