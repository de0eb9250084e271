//! What a replace took away.
ghost use Rattle.std.specs.Prelude.{◌≡◌, ◌≤◌, ◌++◌, IfOk, option_map, length, drop};
ghost use Rattle.fsfs_revision.specs.Damage.Causes.{HasCause};
ghost use Rattle.fsfs_revision.specs.Damage.Readings.{Answers};
ghost use Rattle.fsfs_revision.specs.Told.{RevisionBytes, Knows, Keeps};
ghost use Rattle.fsfs_tree.specs.ChangedTexts.{nearest_source, place_before, place_upto, taken_from};
ghost use Rattle.fsfs_stands.specs.ChangedTexts.{source_at, TakenKind};
ghost use Rattle.fsfs_history.specs.KeptDirs.{IsKept};
ghost use Rattle.fsfs_history.specs.Views.{by_text_value, source_place};

use crate::by_text::ItemsByText;
use crate::kept_dir::{KeptDir, kind_kept};
use fsfs_base::{FsPath, Kind, RevNum};
use fsfs_noderev::CopySource;
use fsfs_revision::{Book, ReadError};
use std::alloc::{AllocError, Global};

// The source below which a path of `depth` names fewer stands.
fn below_source(source: &CopySource, path: &FsPath, depth: usize) -> Result<CopySource, AllocError>
    requires { depth ≤ length path.now }
    ensures { IfOk result (λ s. source_place s ≡ (source.now.rev, source.now.path ++ drop depth path.now)) }
{
    let path = path.moved(depth, &source.path)?;
    Ok(CopySource {
        rev: source.rev,
        path,
    })
}

// Below the source of the nearest item above a path that has one.
fn nearest_source(
    alloc: Global,
    items: &ItemsByText,
    path: &FsPath,
) -> Result<Option<CopySource>, AllocError>
    ensures { IfOk result (λ o. option_map source_place o ≡ nearest_source (source_at (by_text_value items.now)) path.now (length path.now)) }
{
    let mut depth = path.depth();
    'names: while depth > 0 {
        depth -= 1;
        let above = path.prefix(alloc, depth)?;
        match items.source_at(alloc, &above)? {
            None => {}
            Some(source) => {
                let from = below_source(source, path, depth)?;
                return Ok(Some(from));
            }
        }
    }
    Ok(None)
}

// The path in the revision before.
fn place_before(rev: RevNum, path: &FsPath) -> Result<Option<CopySource>, AllocError>
    ensures { IfOk result (λ o. option_map source_place o ≡ place_before rev path.now) }
{
    match rev.previous() {
        None => Ok(None),
        Some(rev) => {
            let path = path.clone()?;
            Ok(Some(CopySource { rev, path }))
        }
    }
}

// A place, where it is of this revision or an earlier one.
fn place_upto(rev: RevNum, from: CopySource) -> Option<CopySource>
    ensures { option_map source_place result ≡ place_upto rev (source_place from) }
{
    if from.rev <= rev { Some(from) } else { None }
}

// Where what a replace took away stood.
fn taken_from(
    alloc: Global,
    rev: RevNum,
    items: &ItemsByText,
    path: &FsPath,
) -> Result<Option<CopySource>, AllocError>
    ensures { IfOk result (λ o. option_map source_place o ≡ taken_from rev (source_at (by_text_value items.now)) path.now) }
{
    match nearest_source(alloc, items, path)? {
        None => place_before(rev, path),
        Some(from) => Ok(place_upto(rev, from)),
    }
}

/// The kind of what a replace at this path took away: that of the node at the path in the revision before, or, where an item
/// above has a copy source, at the same place below the nearest such source; this kind where no node stands there. The directory
/// that was read last is kept from call to call.
pub(crate) fn taken_kind<B: Book>(
    alloc: Global,
    book: &mut B,
    rev: RevNum,
    items: &ItemsByText,
    path: &FsPath,
    kind: Kind,
    kept: &mut Option<KeptDir>,
) -> Result<Kind, ReadError>
    ensures told { (look : RevisionBytes) → Knows (B.told book.old).revs rev look → IsKept look kept.old → Answers (λ k. k) (TakenKind look rev (by_text_value items.now) path.now kind) result }
    ensures dir { (look : RevisionBytes) → Knows (B.told book.old).revs rev look → IsKept look kept.old → IsKept look kept.new }
    ensures kept { Keeps (B.told book.old) (B.told book.new) }
    ensures cause { HasCause (B.faults book.old) (B.faults book.new) result }
{
    match taken_from(alloc, rev, items, path)? {
        None => Ok(kind),
        Some(from) => kind_kept(alloc, book, kept, from.rev, &from.path, kind),
    }
}
