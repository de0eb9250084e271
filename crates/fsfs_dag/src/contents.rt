//! A node's properties and a file's text.
ghost use Rattle.std.specs.Prelude.{◌≡◌, IsSome};
ghost use Rattle.fsfs_base.specs.declared.kind.Kind.TheVariants.{File};
ghost use Rattle.fsfs_revision.specs.Told.{RevisionBytes, Knows, Keeps, IsTold};
ghost use Rattle.fsfs_layout.specs.Hash.Reading.{views};
ghost use Rattle.fsfs_revision.specs.Rep.Frames.{rev_of};
ghost use Rattle.fsfs_revision.specs.Damage.Readings.{Answers};
ghost use Rattle.fsfs_revision.specs.Shows.Reading.{RepAt, PairsIn, PairsAt, PropsOf, TextOf};
ghost use Rattle.fsfs_revision.specs.Damage.Causes.{HasCause, IsQuiet};
ghost use Rattle.fsfs_dag.specs.Views.{home_of};

use crate::node::PlacedNode;
use fsfs_base::Pairs;
use fsfs_layout::{HashError, read_hash, read_hash_in_place};
use fsfs_noderev::Rep;
use fsfs_revision::{Book, ReadError, RepWhat, bad_rep, read_rep_bytes};
use std::alloc::Global;

/// The bytes of a representation.
pub(crate) fn rep_read<B: Book>(
    alloc: Global,
    book: &mut B,
    rep: &Rep,
) -> Result<Vec<u8>, ReadError>
    requires { IsSome rep.now.rev }
    ensures told { (look : RevisionBytes) → IsTold (B.told book.old) look (rev_of rep.now) → Answers (λ v. v.items) (RepAt look rep.now) result }
    ensures kept { Keeps (B.told book.old) (B.told book.new) }
    ensures cause { HasCause (B.faults book.old) (B.faults book.new) result }
{
    read_rep_bytes(alloc, book, rep)
}

// The pairs of the bytes of a representation.
fn hash_in(alloc: Global, rep: &Rep, bytes: &[u8]) -> Result<Pairs, ReadError>
    ensures told { Answers (λ pairs. pairs) (PairsIn rep.now bytes.now) result }
    ensures quiet { IsQuiet result }
{
    match read_hash(alloc, bytes) {
        Ok(pairs) => Ok(pairs),
        Err(HashError::OutOfMemory) => Err(ReadError::OutOfMemory),
        Err(HashError::Fault(_)) => Err(bad_rep(rep, RepWhat::Hash)),
    }
}

/// The same, where they lie in the bytes.
pub(crate) fn hash_in_place<'a>(
    alloc: Global,
    rep: &Rep,
    bytes: &'a [u8],
) -> Result<Vec<(&'a [u8], &'a [u8])>, ReadError>
    ensures told { Answers (λ v. views v.items) (PairsIn rep.now bytes.now) result }
    ensures quiet { IsQuiet result }
{
    match read_hash_in_place(alloc, bytes) {
        Ok(pairs) => Ok(pairs),
        Err(HashError::OutOfMemory) => Err(ReadError::OutOfMemory),
        Err(HashError::Fault(_)) => Err(bad_rep(rep, RepWhat::Hash)),
    }
}

/// The pairs of a representation that holds a dump.
pub(crate) fn pairs_in<B: Book>(alloc: Global, book: &mut B, rep: &Rep) -> Result<Pairs, ReadError>
    requires { IsSome rep.now.rev }
    ensures told { (look : RevisionBytes) → IsTold (B.told book.old) look (rev_of rep.now) → Answers (λ pairs. pairs) (PairsAt look rep.now) result }
    ensures kept { Keeps (B.told book.old) (B.told book.new) }
    ensures cause { HasCause (B.faults book.old) (B.faults book.new) result }
{
    let bytes = rep_read(alloc, book, rep)?;
    hash_in(alloc, rep, &bytes)
}

/// The properties of a node.
pub fn props<B: Book>(alloc: Global, book: &mut B, node: &PlacedNode) -> Result<Pairs, ReadError>
    ensures told { (look : RevisionBytes) → Knows (B.told book.old).revs (home_of node.now.node).rev look → Answers (λ pairs. pairs) (PropsOf look node.now.node) result }
    ensures kept { Keeps (B.told book.old) (B.told book.new) }
    ensures cause { HasCause (B.faults book.old) (B.faults book.new) result }
{
    match node.props() {
        None => Ok(Pairs::new(alloc)),
        Some(rep) => pairs_in(alloc, book, rep),
    }
}

/// The text of a file, all of it checked. The whole text is in memory then.
pub fn text_of<B: Book>(
    alloc: Global,
    book: &mut B,
    file: &PlacedNode,
) -> Result<Vec<u8>, ReadError>
    requires { file.now.node.kind ≡ File }
    ensures told { (look : RevisionBytes) → Knows (B.told book.old).revs (home_of file.now.node).rev look → Answers (λ v. v.items) (TextOf look file.now.node) result }
    ensures kept { Keeps (B.told book.old) (B.told book.new) }
    ensures cause { HasCause (B.faults book.old) (B.faults book.new) result }
{
    match file.text() {
        None => Ok(Vec::new(alloc)),
        Some(rep) => rep_read(alloc, book, rep),
    }
}
