//! The text of a file in a revision, read for its size and its digest.
ghost use Rattle.std.specs.Prelude.{◌≡◌, Ok};
ghost use Rattle.fsfs_base.specs.Paths.{Path};
ghost use Rattle.fsfs_base.specs.declared.kind.Kind.TheVariants as kinds;
ghost use Rattle.fsfs_revision.specs.Told.{RevisionBytes, Knows, Keeps};
ghost use Rattle.fsfs_revision.specs.Shows.Reading.{MetAt, Stands};
ghost use Rattle.fsfs_look.specs.Written.{HasDiskCause};
ghost use Rattle.fsfs_job_run.specs.TextReads.{IsTextRead};

use fsfs_base::{FsPath, HexDigest, Kind, RevNum};
use fsfs_dag::PlacedNode;
use fsfs_jobs::TextRead;
use fsfs_look::{LookError, check_rep, found_at};
use fsfs_revision::Book;
use fsfs_stands::LookFault;
use md5::{Digest, Md5};
use std::alloc::Global;

// How many bytes are read at a time.
const PIECE: usize = 65536;

// The size and the MD5 of the text of a file that was found. Where its representation is whole, they are those that it names.
fn text_at<B: Book>(book: &mut B, rev: RevNum, found: &PlacedNode) -> Result<TextRead, LookError>
    requires file { found.now.node.kind ≡ kinds.File }
    ensures told { (look : RevisionBytes) (path : Path) → Knows (B.told book.old).revs rev look → MetAt look rev path (Ok (Stands found.now.node)) → IsTextRead look rev path result }
    ensures kept { Keeps (B.told book.old) (B.told book.new) }
    ensures cause { HasDiskCause (B.faults book.old) (B.faults book.new) result }
{
    let Some(rep) = found.text() else {
        return Ok(TextRead {
            rev,
            size: 0,
            md5: HexDigest {
                bytes: Md5::new().finalize(),
            },
        });
    };
    let mut piece = [0u8; PIECE];
    match check_rep(book, rep, &mut piece) {
        Ok(()) => Ok(TextRead {
            rev,
            size: rep.length,
            md5: rep.md5,
        }),
        Err(error) => Err(LookError::from(error)),
    }
}

/// The size and the MD5 of the text of the file at a path of a revision. All of it is read, a piece at a time, and its size and both
/// digests are checked.
pub fn read_text<B: Book>(
    alloc: Global,
    book: &mut B,
    rev: RevNum,
    path: &FsPath,
) -> Result<TextRead, LookError>
    ensures told { (look : RevisionBytes) → Knows (B.told book.old).revs rev look → IsTextRead look rev path.now result }
    ensures kept { Keeps (B.told book.old) (B.told book.new) }
    ensures cause { HasDiskCause (B.faults book.old) (B.faults book.new) result }
{
    let found = found_at(alloc, book, rev, path)?;
    match found.node.kind {
        Kind::Dir => Err(LookError::Fault(LookFault::NotFile)),
        Kind::File => text_at(book, rev, &found),
    }
}
