//! A text put at what was opened.
ghost use Rattle.std.specs.Prelude.{◌≡◌, true};
ghost use Rattle.fsfs_txn.specs.Opened.Failing.{HasSourceRise, HasBenchRise};
ghost use Rattle.fsfs_txn.specs.Opened.Leading.{LacksNothing, LeadStill};
ghost use Rattle.fsfs_txn.specs.Opened.Texts.{refusal_of, PutsText, PutsAll, PutsStill, MeetsPut};

use crate::opened::opening::Way;
use crate::opened::reached::{kind_of, reached};
use fsfs_base::{FsPath, HexDigest, Kind, Source};
use fsfs_draft::{EditError, Own};
use fsfs_edit::{modified, set_text};
use fsfs_noderev::NodeId;
use fsfs_txn_files::TextError;
use fsfs_txn_nodes::OwnTexts;
use std::alloc::Global;

/// What became of a text: it was put, or why it can't be.
#[derive(Clone, Copy)]
pub enum TextPut {
    Done,
    /// A directory stands there.
    NotFile,
    /// A call of the source failed, and its count of faults rose.
    SourceFault,
    /// The source had a byte more than a text may have, 1,073,741,824.
    TooLong,
    /// The text has another MD5 than the one that was given.
    Checksum {
        /// The one that was given.
        kept: HexDigest<16>,
        /// The text's.
        found: HexDigest<16>,
    },
}

fn refused(error: TextError) -> Result<TextPut, EditError>
    ensures { result ≡ refusal_of error }
{
    match error {
        TextError::SourceFault => Ok(TextPut::SourceFault),
        TextError::TextTooLong => Ok(TextPut::TooLong),
        TextError::Checksum { kept, found } => Ok(TextPut::Checksum { kept, found }),
        TextError::BenchFault => Err(EditError::BenchFault),
    }
}

// Puts the text at an own file, at this path. Its bytes are put at the end of the prototype file first.
fn text_in<N: OwnTexts, I: Source>(
    own: &mut N,
    path: &FsPath,
    id: &NodeId,
    source: &mut I,
    expect: Option<HexDigest<16>>,
) -> Result<TextPut, EditError>
    ensures puts { PutsText ((x : N) → N.tells x ≡ true) (N.txn own.old) (N.settled own.old) (N.folder own.old) (N.settled own.new) path.now id.now (I.remaining source.old) (I.remaining source.new) expect result }
    ensures all { PutsAll (N.txn own.old) (N.settled own.old) (N.folder own.old) path.now id.now result }
    ensures still { PutsStill (N.txn own.old) (N.settled own.old) (N.folder own.old) (N.settled own.new) path.now id.now result }
    ensures name { N.txn own.new ≡ N.txn own.old }
    ensures source_cause { HasSourceRise (I.faults source.old) (I.faults source.new) result }
    ensures bench_cause { HasBenchRise (N.faults own.old) (N.faults own.new) result }
{
    let number = own.draw_node()?;
    let rep = match own.append_text(source, expect, &number) {
        Ok(rep) => rep,
        Err(error) => return refused(error),
    };
    set_text(own, id, &rep)?;
    let item = modified(*id, Kind::File, path, true, false)?;
    own.settle(item)?;
    Ok(TextPut::Done)
}

fn put_steps<N: OwnTexts, I: Source>(
    alloc: Global,
    own: &mut N,
    way: &Way,
    source: &mut I,
    expect: Option<HexDigest<16>>,
) -> Result<TextPut, EditError>
    requires whole { N.folder own.old ≡ N.settled own.old }
    ensures meets { MeetsPut ((x : N) → N.tells x ≡ true) (N.txn own.old) (N.settled own.old) (N.settled own.new) way.now (I.remaining source.old) (I.remaining source.new) expect result }
    ensures all { LacksNothing (N.txn own.old) (N.settled own.old) way.now result }
    ensures still { LeadStill (N.txn own.old) (N.settled own.old) (N.settled own.new) way.now result }
    ensures name { N.txn own.new ≡ N.txn own.old }
    ensures source_cause { HasSourceRise (I.faults source.old) (I.faults source.new) result }
    ensures bench_cause { HasBenchRise (N.faults own.old) (N.faults own.new) result }
{
    let id = reached(alloc, own, way)?;
    match kind_of(own, &id) {
        None => Err(EditError::Lacking),
        Some(kind) => match kind {
            Kind::Dir => Ok(TextPut::NotFile),
            Kind::File => text_in(own, &way.path, &id, source, expect),
        },
    }
}

/// Gives the file that was opened the text that the source has left. No book is read. It is refused at a directory, where the source
/// fails, or where the text is too long or has another digest than the one that was given, in this order; then bytes more may stand
/// at the end of the prototype file, and nothing else was changed. So it is after each failure but the bench's.
pub fn put_text<N: OwnTexts, I: Source>(
    alloc: Global,
    own: &mut N,
    way: &Way,
    source: &mut I,
    expect: Option<HexDigest<16>>,
) -> Result<TextPut, EditError>
    requires whole { N.folder own.old ≡ N.settled own.old }
    ensures meets { MeetsPut ((x : N) → N.tells x ≡ true) (N.txn own.old) (N.settled own.old) (N.settled own.new) way.now (I.remaining source.old) (I.remaining source.new) expect result }
    ensures all { LacksNothing (N.txn own.old) (N.settled own.old) way.now result }
    ensures still { LeadStill (N.txn own.old) (N.settled own.old) (N.settled own.new) way.now result }
    ensures whole { N.folder own.new ≡ N.settled own.new }
    ensures name { N.txn own.new ≡ N.txn own.old }
    ensures source_cause { HasSourceRise (I.faults source.old) (I.faults source.new) result }
    ensures bench_cause { HasBenchRise (N.faults own.old) (N.faults own.new) result }
{
    let put = put_steps(alloc, own, way, source, expect);
    own.forget();
    put
}
