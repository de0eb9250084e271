//! The trailer that ends a revision.
ghost use Rattle.std.specs.Prelude.{◌≡◌, ◌≤◌, ◌<◌, ◌+◌, ◌^◌, length, IfSome, Some, OnOk};
ghost use Rattle.fsfs_base.specs.Grammar.Relations.{Appends};
ghost use Rattle.fsfs_base.specs.Grammar.Reading.{Gives};
ghost use Rattle.fsfs_revision.specs.Trailers.{IsTrailer, EndsWith, trailer_at};
ghost use Rattle.fsfs_revision.specs.declared.trailer.Trailer.{Trailer};

use fsfs_base::decimals::{decimal, put_decimal};
use fsfs_base::pieces::text;
use std::alloc::AllocError;

/// Where the trailer begins at most, in bytes before the end of the revision.
pub const TRAILER_LIMIT: usize = 64;

/// What the trailer of a revision says.
#[derive(Clone, Copy, Debug)]
pub struct Trailer {
    /// Where the root's node-revision begins.
    pub root: u64,
    /// Where the changed paths begin.
    pub changes: u64,
}

// The trailer that the bytes are; or how many bytes are left where they leave its form.
#[tactic(auto, unfolding(crate::specs::Trailers::trailer_at))]
fn whole_trailer(bytes: &[u8]) -> Result<Trailer, usize>
    ensures { Gives (λ t. (t.root, t.changes)) result (trailer_at bytes.now) }
{
    let rest = text(b"\n", bytes)?;
    let (root, rest) = decimal(u64::MAX, b' ', rest)?;
    let (changes, rest) = decimal(u64::MAX, b'\n', rest)?;
    if !rest.is_empty() {
        return Err(rest.len());
    }
    Ok(Trailer { root, changes })
}

// The trailer that ends the bytes, which begin at this offset.
fn find(begins: u64, bytes: &[u8]) -> Option<Trailer>
    requires offsets { begins + length bytes.now < 2 ^ 64 }
    requires few { length bytes.now ≤ 64 }
    ensures found { IfSome result (EndsWith begins bytes.now) }
    ensures only { (t : Trailer) → EndsWith begins bytes.now t → result ≡ Some t }
{
    match bytes {
        [] => None,
        [_, rest @ ..] => match whole_trailer(bytes) {
            Ok(trailer) => {
                if trailer.root < begins && trailer.changes <= begins {
                    Some(trailer)
                } else {
                    None
                }
            }
            Err(_) => find(begins + 1, rest),
        },
    }
}

/// The trailer that ends a revision, from its last bytes: all bytes from the offset `begins` on, at least the last 64 where
/// it has so many. `None`: no trailer ends them, it begins more than 64 bytes before the end, its root isn't before the place
/// where it begins, or its changed paths are past that.
pub fn read_tail(begins: u64, bytes: &[u8]) -> Option<Trailer>
    requires { begins + length bytes.now < 2 ^ 64 }
    ensures found { IfSome result (EndsWith begins bytes.now) }
    ensures only { (t : Trailer) → EndsWith begins bytes.now t → result ≡ Some t }
{
    let cut = bytes.len().saturating_sub(TRAILER_LIMIT);
    find(begins + cut as u64, &bytes[cut..])
}

/// The trailer that ends all the bytes of a revision.
pub fn read_trailer(bytes: &[u8]) -> Option<Trailer>
    ensures found { IfSome result (EndsWith 0 bytes.now) }
    ensures only { (t : Trailer) → EndsWith 0 bytes.now t → result ≡ Some t }
{
    read_tail(0, bytes)
}

/// Writes the trailer at the end of a revision's bytes.
pub fn put_trailer(out: &mut Vec<u8>, trailer: Trailer) -> Result<(), AllocError>
    requires root { trailer.root < length out.old.items }
    requires changes { trailer.changes ≤ length out.old.items }
    ensures added { OnOk result (Appends IsTrailer out.old.items out.new.items (trailer.root, trailer.changes)) }
    ensures ends { OnOk result (EndsWith 0 out.new.items trailer) }
{
    out.push(b'\n')?;
    put_decimal(out, trailer.root, b' ')?;
    put_decimal(out, trailer.changes, b'\n')?;
    Ok(())
}
