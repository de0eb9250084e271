//! What stands in front of a text: its length and its digests.
ghost use Rattle.std.specs.Prelude.{◌≡◌, ◌<◌, ℕ, List, Some, Ok, Err, IsSome, MatchResult, length};
ghost use Rattle.fsfs_revision.specs.declared.wrong.Refusal.{Refusal};
ghost use Rattle.fsfs_revision.specs.Damage.Causes.{HasCause};
ghost use Rattle.fsfs_revision.specs.Told.{Keeps};
ghost use Rattle.fsfs_revision.specs.Rep.Faults.{IsRefusedFor};
ghost use Rattle.fsfs_revision.specs.Rep.Frames.{rev_of, text_of, IsWhole, IsFaultOf};
ghost use Rattle.fsfs_dump.specs.Records.{facts_of};
ghost use Rattle.fsfs_dump.specs.Views.{facts_value};

use fsfs_base::HexDigest;
use fsfs_digest::sha1_of_rep;
use fsfs_noderev::Rep;
use fsfs_revision::{Book, Digester, ReadError};
use std::alloc::Global;
use std::thread::Threads;

/// The length of a text and its digests.
#[derive(Clone, Copy)]
pub(crate) struct Facts {
    pub(crate) size: u64,
    pub(crate) md5: HexDigest<16>,
    pub(crate) sha1: HexDigest<20>,
}

/// Those of a text in memory.
pub(crate) fn facts_of(text: &[u8]) -> Facts
    ensures { facts_value result ≡ facts_of text.now }
{
    let mut digester = Digester::new();
    digester.update(text);
    let (md5, sha1) = digester.finish();
    Facts {
        size: text.len() as u64,
        md5,
        sha1,
    }
}

/// Those of the text of a representation, which is read to its end and checked: its frame, its size and its digests. The piece is for
/// all but a large one.
pub(crate) fn facts_of_rep<R: Threads, B: Book>(
    rt: &R,
    alloc: Global,
    book: &mut B,
    rep: &Rep,
    piece: &mut [u8],
) -> Result<Facts, ReadError>
    requires rev { IsSome rep.now.rev }
    requires room { 0 < length piece.old }
    ensures bytes { (bytes : List ℕ) → (B.told book.old).revs (rev_of rep.now) ≡ Some (Ok bytes) → MatchResult result (λ facts. IsWhole rep.now bytes × (facts_value facts ≡ facts_of (text_of rep.now bytes))) (IsFaultOf rep.now bytes) }
    ensures refused { (why : Refusal) → (B.told book.old).revs (rev_of rep.now) ≡ Some (Err why) → MatchResult result (λ _. ⊥) (IsRefusedFor why) }
    ensures room { length piece.new ≡ length piece.old }
    ensures kept { Keeps (B.told book.old) (B.told book.new) }
    ensures cause { HasCause (B.faults book.old) (B.faults book.new) result }
{
    let sha1 = sha1_of_rep(rt, alloc, book, rep, piece)?;
    Ok(Facts {
        size: rep.length,
        md5: rep.md5,
        sha1,
    })
}
