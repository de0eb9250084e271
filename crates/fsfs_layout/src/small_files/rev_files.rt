//! Files with one revision: `db/current` and `db/min-unpacked-rev`.
ghost use Rattle.std.specs.Prelude.{◌≡◌, ℕ, ◌∷◌, [], ◌++◌, IfOk, IfErr, Ok};
ghost use Rattle.std.specs.Fmt.{decimal};
ghost use Rattle.fsfs_base.specs.Grammar.Reading.{Gives};
ghost use Rattle.fsfs_layout.specs.Small.{IsRevLine, IsMinUnpackedRevIn, IsMinUnpackedRev, IsFaultOf, IsMinUnpackedFaultIn, IsMinUnpackedFault};
ghost use Rattle.fsfs_layout.specs.declared.format.Format.TheVariants.{Four};
ghost use Rattle.fsfs_layout.specs.Layouts.{place_in_shard};
ghost use Rattle.fsfs_layout.specs.Reading.{rev_line_at};

use crate::format::Format;
use crate::layout::Layout;
use fsfs_base::{RevNum, SmallFault, SmallFile};
use std::alloc::{AllocError, Global};

fn rev_line(bytes: &[u8]) -> Result<RevNum, usize>
    ensures { Gives (λ n. n) result (rev_line_at bytes.now) }
{
    match RevNum::read_ended(b'\n', bytes) {
        Err(left) => Err(left),
        Ok((rev, rest)) => {
            if rest.is_empty() {
                Ok(rev)
            } else {
                Err(rest.len())
            }
        }
    }
}

/// The youngest revision, from the bytes of `db/current`: a decimal number of at most 2,147,483,647 and a newline.
pub fn read_current(bytes: &[u8]) -> Result<RevNum, SmallFault>
    ensures found { IfOk result (IsRevLine bytes.now) }
    ensures only { (n : ℕ) → IsRevLine bytes.now n → result ≡ Ok n }
    ensures fault { IfErr result (IsFaultOf SmallFile.Current IsRevLine bytes.now) }
{
    match rev_line(bytes) {
        Ok(rev) => Ok(rev),
        Err(left) => Err(SmallFault {
            file: SmallFile::Current,
            at: bytes.len() - left,
        }),
    }
}

// The oldest revision that isn't packed, from the bytes of `db/min-unpacked-rev` of format 4.
fn read_floor(layout: Layout, bytes: &[u8]) -> Result<RevNum, SmallFault>
    ensures found { IfOk result (IsMinUnpackedRevIn Four layout bytes.now) }
    ensures only { (n : ℕ) → IsMinUnpackedRevIn Four layout bytes.now n → result ≡ Ok n }
    ensures fault { IfErr result (IsMinUnpackedFaultIn Four layout bytes.now) }
{
    match rev_line(bytes) {
        Ok(rev) => {
            if layout.place_in_shard(rev) != 0 {
                return Err(SmallFault {
                    file: SmallFile::MinUnpackedRev,
                    at: 0,
                });
            }
            Ok(rev)
        }
        Err(left) => Err(SmallFault {
            file: SmallFile::MinUnpackedRev,
            at: bytes.len() - left,
        }),
    }
}

/// The oldest revision that isn't packed, from the bytes of `db/min-unpacked-rev`: a revision number and a newline. A number that
/// isn't of the first revision of a shard is refused at byte 0, and in one folder any but 0. In format 3, which has no such file, it is 0,
/// whatever the bytes.
pub fn read_min_unpacked_rev(layout: Layout, bytes: &[u8]) -> Result<RevNum, SmallFault>
    ensures found { IfOk result (IsMinUnpackedRev layout bytes.now) }
    ensures only { (n : ℕ) → IsMinUnpackedRev layout bytes.now n → result ≡ Ok n }
    ensures fault { IfErr result (IsMinUnpackedFault layout bytes.now) }
{
    match layout.format() {
        Format::Three => Ok(RevNum::ZERO),
        Format::Four => read_floor(layout, bytes),
    }
}

fn write_rev_line(alloc: Global, rev: RevNum) -> Result<Vec<u8>, AllocError>
    ensures grammar { IfOk result (λ v. IsRevLine v.items rev) }
    ensures text { IfOk result (λ v. v.items ≡ decimal rev ++ 10 ∷ []) }
{
    let mut out = Vec::new(alloc);
    rev.put_ended(&mut out, b'\n')?;
    Ok(out)
}

/// The bytes of `db/current` for this youngest revision.
pub fn write_current(alloc: Global, youngest: RevNum) -> Result<Vec<u8>, AllocError>
    ensures grammar { IfOk result (λ v. IsRevLine v.items youngest) }
    ensures text { IfOk result (λ v. v.items ≡ decimal youngest ++ 10 ∷ []) }
{
    write_rev_line(alloc, youngest)
}

/// The bytes of `db/min-unpacked-rev` of format 4 for this oldest revision that isn't packed.
pub fn write_min_unpacked_rev(
    alloc: Global,
    layout: Layout,
    rev: RevNum,
) -> Result<Vec<u8>, AllocError>
    requires format { layout.format ≡ Four }
    requires whole { place_in_shard layout rev ≡ 0 }
    ensures grammar { IfOk result (λ v. IsMinUnpackedRev layout v.items rev) }
    ensures text { IfOk result (λ v. v.items ≡ decimal rev ++ 10 ∷ []) }
{
    write_rev_line(alloc, rev)
}
