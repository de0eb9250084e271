//! `db/uuid`.
ghost use Rattle.std.specs.Prelude.{◌≡◌, ℕ, List, [], ◌∷◌, ◌++◌, length, ◌≤◌, IfOk, IfErr, OnOk, Ok};
ghost use Rattle.fsfs_base.specs.Grammar.Reading.{Gives};
ghost use Rattle.fsfs_base.specs.Grammar.Cuts.{Lacks};
ghost use Rattle.fsfs_layout.specs.Small.{IsUuid, IsFaultOf};
ghost use Rattle.fsfs_layout.specs.Reading.{line_rest_at, line_bytes_at, uuid_at};

use fsfs_base::pieces::text;
use fsfs_base::{SmallFault, SmallFile};
use std::alloc::{AllocError, Global};
use std::marker::Model;

/// A repository's identifier: 36 bytes, none of which is a newline. A contract sees the bytes.
#[derive(Drop)]
pub struct Uuid {
    bytes: [u8; 36],
}

impl Model for Uuid {
    ghost use Rattle.std.specs.Prelude.{◌≡◌, ℕ, List, length};
    ghost use Rattle.fsfs_base.specs.Grammar.Cuts.{Lacks};

    ghost Value = { List ℕ };

    ghost view = { λ u. u.bytes };

    ghost invariant = { λ u. (length u.bytes ≡ 36) × Lacks 10 u.bytes };
}

impl Uuid {
    /// The identifier of these bytes.
    pub fn new(bytes: [u8; 36]) -> Uuid
        requires { Lacks 10 bytes }
        ensures { result ≡ bytes }
    {
        Uuid { bytes }
    }

    /// Its 36 bytes.
    pub fn as_bytes(&self) -> &[u8]
        ensures bytes { result.now ≡ self.now }
        ensures size { length result.now ≡ 36 }
        ensures one_line { Lacks 10 result.now }
    {
        &self.bytes
    }
}

/// What stands behind so many bytes of which none is a newline;
/// or how many bytes are left at the first byte that breaks this.
#[tactic(auto, unfolding(crate::specs::Reading::line_rest_at))]
fn line_rest(count: usize, bytes: &[u8]) -> Result<&[u8], usize>
    ensures rest { Gives (λ rest. rest.now) result (line_rest_at count bytes.now) }
    ensures fits { OnOk result (count ≤ length bytes.now) }
{
    if count == 0 {
        return Ok(bytes);
    }
    match bytes {
        [] => Err(0),
        [b, after @ ..] => {
            if *b == b'\n' {
                return Err(bytes.len());
            }
            line_rest(count - 1, after)
        }
    }
}

/// So many bytes of which none is a newline, and what stands behind them.
fn line_bytes(count: usize, bytes: &[u8]) -> Result<(&[u8], &[u8]), usize>
    ensures { Gives (λ p. (p.0.now, p.1.now)) result (line_bytes_at count bytes.now) }
{
    let rest = line_rest(count, bytes)?;
    Ok((&bytes[..count], rest))
}

#[tactic(auto, unfolding(crate::specs::Reading::uuid_at))]
fn whole_uuid(bytes: &[u8]) -> Result<Uuid, usize>
    ensures { Gives (λ u. u) result (uuid_at bytes.now) }
{
    let (line, rest) = line_bytes(36, bytes)?;
    let rest = text(b"\n", rest)?;
    if !rest.is_empty() {
        return Err(rest.len());
    }
    let mut uuid = [0; 36];
    uuid.copy_from_slice(line);
    Ok(Uuid { bytes: uuid })
}

/// The repository's identifier, from the bytes of `db/uuid`: 36 bytes of which none is a newline, and a newline.
pub fn read_uuid(bytes: &[u8]) -> Result<Uuid, SmallFault>
    ensures found { IfOk result (IsUuid bytes.now) }
    ensures only { (u : List ℕ) → IsUuid bytes.now u → result ≡ Ok u }
    ensures fault { IfErr result (IsFaultOf SmallFile.Uuid IsUuid bytes.now) }
{
    match whole_uuid(bytes) {
        Ok(uuid) => Ok(uuid),
        Err(left) => Err(SmallFault {
            file: SmallFile::Uuid,
            at: bytes.len() - left,
        }),
    }
}

/// The bytes of `db/uuid`.
pub fn write_uuid(alloc: Global, uuid: &Uuid) -> Result<Vec<u8>, AllocError>
    ensures grammar { IfOk result (λ v. IsUuid v.items uuid.now) }
    ensures text { IfOk result (λ v. v.items ≡ uuid.now ++ 10 ∷ []) }
{
    let mut out = Vec::from_slice(alloc, uuid.as_bytes())?;
    out.push(b'\n')?;
    Ok(out)
}
