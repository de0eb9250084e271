//! `next-ids` in a transaction's folder.
ghost use Rattle.std.specs.Prelude.{◌≡◌, ℕ, IfOk, IfErr, IsOkAnd};
ghost use Rattle.fsfs_base.specs.Grammar.Reading.{Gives};
ghost use Rattle.fsfs_layout.specs.Small.{IsNextIds, IsFaultOf};
ghost use Rattle.fsfs_layout.specs.Reading.{next_ids_at};

use fsfs_base::base36::{base36_number, put_base36};
use fsfs_base::{B36, SmallFault, SmallFile};
use std::alloc::{AllocError, Global};

/// The numbers that a transaction's next node and next copy get.
#[derive(Clone, Copy, Debug, PartialEq, Eq)]
pub struct NextIds {
    pub node: B36,
    pub copy: B36,
}

#[tactic(auto, unfolding(crate::specs::Reading::next_ids_at))]
fn next_ids(bytes: &[u8]) -> Result<NextIds, usize>
    ensures { Gives (λ ids. (ids.node.number, ids.copy.number)) result (next_ids_at bytes.now) }
{
    let (node, rest) = base36_number(b' ', bytes)?;
    let (copy, rest) = base36_number(b'\n', rest)?;
    if !rest.is_empty() {
        return Err(rest.len());
    }
    Ok(NextIds { node, copy })
}

/// The next numbers of a transaction, from the bytes of its `next-ids`:
/// a base-36 number for nodes, a space, one for copies, and a newline.
pub fn read_next_ids(bytes: &[u8]) -> Result<NextIds, SmallFault>
    ensures found { IfOk result (λ ids. IsNextIds bytes.now (ids.node.number, ids.copy.number)) }
    ensures only { (node copy : ℕ) → IsNextIds bytes.now (node, copy) → IsOkAnd result (λ ids. (ids.node.number ≡ node) × (ids.copy.number ≡ copy)) }
    ensures fault { IfErr result (IsFaultOf SmallFile.NextIds IsNextIds bytes.now) }
{
    match next_ids(bytes) {
        Ok(ids) => Ok(ids),
        Err(left) => Err(SmallFault {
            file: SmallFile::NextIds,
            at: bytes.len() - left,
        }),
    }
}

/// The bytes of a transaction's `next-ids`.
pub fn write_next_ids(alloc: Global, ids: &NextIds) -> Result<Vec<u8>, AllocError>
    ensures { IfOk result (λ v. IsNextIds v.items (ids.now.node.number, ids.now.copy.number)) }
{
    let mut out = Vec::new(alloc);
    put_base36(&mut out, &ids.node, b' ')?;
    put_base36(&mut out, &ids.copy, b'\n')?;
    Ok(out)
}
