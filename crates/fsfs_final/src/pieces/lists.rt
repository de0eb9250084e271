//! Lists of a directory's entries and of properties.
ghost use Rattle.std.specs.Prelude.{◌≡◌, Option, IfOk, option_map};
ghost use Rattle.md5.specs.Md5.{md5};
ghost use Rattle.fsfs_revision.specs.Shows.Reading.{Pairs};
ghost use Rattle.fsfs_final.specs.Pieces.Lists.{IsTextPut, AreTextOf, IsListPut, AreContentsPut, list_of, in_revision};

use crate::pieces::offsets::end_at;
use fsfs_base::{HexDigest, Pairs, RevNum};
use fsfs_layout::write_hash;
use fsfs_noderev::{Contents, Rep};
use md5::{Digest, Md5};
use std::alloc::{AllocError, Global};

fn md5_of(text: &[u8]) -> HexDigest<16>
    ensures { result.bytes ≡ md5 text.now }
{
    let mut digest = Md5::new();
    digest.update(text);
    HexDigest {
        bytes: digest.finalize(),
    }
}

// Puts the text of a list at the end as a plain representation of the revision, and answers the representation. The buffer begins
// at the offset `start` of the revision.
fn put_text(out: &mut Vec<u8>, rev: RevNum, start: u64, text: &[u8]) -> Result<Rep, AllocError>
    ensures { IfOk result (IsTextPut rev start out.old.items out.new.items text.now) }
{
    let offset = end_at(start, out.len())?;
    let length = text.len() as u64;
    let md5 = md5_of(text);
    out.extend_from_slice(b"PLAIN\n")?;
    out.extend_from_slice(text)?;
    out.extend_from_slice(b"ENDREP\n")?;
    Ok(Rep {
        rev: Some(rev),
        offset,
        length,
        size: length,
        md5,
        unique: None,
    })
}

// Puts the list of an own file; there is none: an empty one.
fn put_own_list(
    out: &mut Vec<u8>,
    rev: RevNum,
    start: u64,
    text: &Option<Vec<u8>>,
) -> Result<Rep, AllocError>
    ensures { (list : Option Pairs) → AreTextOf list (option_map (λ v. v.items) text.now) → IfOk result (IsListPut rev start out.old.items out.new.items (list_of list)) }
{
    match text {
        Some(text) => {
            let rep = put_text(out, rev, start, text)?;
            Ok(rep)
        }
        None => {
            let rep = put_text(out, rev, start, b"END\n")?;
            Ok(rep)
        }
    }
}

/// The text of a list of properties, if there is one.
pub(crate) fn text_of(alloc: Global, list: &Option<Pairs>) -> Result<Option<Vec<u8>>, AllocError>
    ensures { IfOk result (λ text. AreTextOf list.now (option_map (λ v. v.items) text)) }
{
    match list {
        None => Ok(None),
        Some(pairs) => {
            let text = write_hash(alloc, pairs)?;
            Ok(Some(text))
        }
    }
}

/// A representation as the revision names it: one of the prototype file stands in the revision.
fn in_revision(rev: RevNum, rep: &Rep) -> Rep
    ensures { result ≡ in_revision rev rep.now }
{
    let mut there = *rep;
    there.rev = Some(rep.rev.unwrap_or(rev));
    there
}

/// What a node-revision has of a text or of properties in the revision: what stands in a file of its own, whose text as a list this
/// is, is put at the end.
pub(crate) fn put_contents(
    out: &mut Vec<u8>,
    rev: RevNum,
    start: u64,
    contents: &Option<Contents>,
    text: &Option<Vec<u8>>,
) -> Result<Option<Contents>, AllocError>
    ensures { (list : Option Pairs) → AreTextOf list (option_map (λ v. v.items) text.now) → IfOk result (AreContentsPut rev start out.old.items out.new.items contents.now list) }
{
    match contents {
        None => Ok(None),
        Some(Contents::At(rep)) => Ok(Some(Contents::At(in_revision(rev, rep)))),
        Some(Contents::Own) => {
            let rep = put_own_list(out, rev, start, text)?;
            Ok(Some(Contents::At(rep)))
        }
    }
}
