//! Texts put at what was opened.
ghost use Rattle.std.specs.Prelude.{◌≡◌, None, true};
ghost use Rattle.fsfs_txn_nodes.specs.Memory.Written.{HasFiles};
ghost use Rattle.fsfs_txn.specs.Opened.Failing as failing;
ghost use Rattle.fsfs_txn.specs.Opened.Leading as leading;
ghost use Rattle.fsfs_txn.specs.Opened.Texts.{MeetsPut};
ghost use Rattle.fsfs_txn.specs.Leading.{LacksNothing, LeadStill};
ghost use Rattle.fsfs_txn.specs.Spending.{IsSpentAfter, StaysSpent};
ghost use Rattle.fsfs_txn.specs.Edits.Texts.{outcome_of, counted_text, MeetsPuttingText, IsStaleText, HasSourceRise, HasBenchRise};

use crate::opening::Opened;
use crate::txn::Txn;
use crate::txn_error::TxnError;
use crate::{TextPut, Way, put_text};
use fsfs_base::{HexDigest, Kind, Source};
use fsfs_draft::{EditError, Own};
use fsfs_txn_nodes::OwnTexts;
use std::alloc::Global;

/// What became of a text: it was put, or why it can't be.
#[derive(Clone, Copy)]
pub enum TextSet {
    Done,
    /// A node was made, copied or taken away since it was opened, or the transaction landed on a later revision: so many such moves
    /// there were then, and so many there are now.
    Stale {
        opened: u64,
        now: u64,
    },
    /// A directory stands there.
    NotFile,
    /// What would be changed has counts of mergeinfo, or the base's root has.
    Mergeinfo,
    /// A call of the source failed, and its count of faults rose.
    SourceFault,
    /// The source had a byte more than a text may have, 1,073,741,824.
    TooLong,
    /// The text has another MD5 than the one that was given.
    Checksum {
        /// The one that was given.
        kept: HexDigest<16>,
        /// The text's.
        found: HexDigest<16>,
    },
}

fn from_put(put: TextPut) -> TextSet
    ensures { result ≡ outcome_of put }
{
    match put {
        TextPut::Done => TextSet::Done,
        TextPut::NotFile => TextSet::NotFile,
        TextPut::SourceFault => TextSet::SourceFault,
        TextPut::TooLong => TextSet::TooLong,
        TextPut::Checksum { kept, found } => TextSet::Checksum { kept, found },
    }
}

// Why no text is put at what was opened, where counts of mergeinfo are met on the way.
fn counted_text(kind: Kind) -> TextSet
    ensures { result ≡ counted_text kind }
{
    match kind {
        Kind::Dir => TextSet::NotFile,
        Kind::File => TextSet::Mergeinfo,
    }
}

// Puts the text. What an earlier failure left unsettled is forgotten first.
fn put_settled<N: OwnTexts, I: Source>(
    alloc: Global,
    own: &mut N,
    way: &Way,
    source: &mut I,
    expect: Option<HexDigest<16>>,
) -> Result<TextPut, EditError>
    ensures meets { MeetsPut ((x : N) → N.tells x ≡ true) (N.txn own.old) (N.settled own.old) (N.settled own.new) way.now (I.remaining source.old) (I.remaining source.new) expect result }
    ensures all { leading.LacksNothing (N.txn own.old) (N.settled own.old) way.now result }
    ensures still { leading.LeadStill (N.txn own.old) (N.settled own.old) (N.settled own.new) way.now result }
    ensures name { N.txn own.new ≡ N.txn own.old }
    ensures source_cause { failing.HasSourceRise (I.faults source.old) (I.faults source.new) result }
    ensures bench_cause { failing.HasBenchRise (N.faults own.old) (N.faults own.new) result }
{
    own.forget();
    put_text(alloc, own, way, source, expect)
}

impl<N: OwnTexts> Txn<N> {
    /// Gives the file that was opened the text that the source has left. No book is read. It is refused where the opening is stale, at
    /// a directory, where counts of mergeinfo would have to change, where the source fails, or where the text is too long or has
    /// another digest than the one that was given, in this order. A refusal leaves what the transaction stands for as it was, and so
    /// does every failure but the bench's, which spends it.
    pub fn put_text<I: Source>(
        &mut self,
        alloc: Global,
        opened: &Opened,
        source: &mut I,
        expect: Option<HexDigest<16>>,
    ) -> Result<TextSet, TxnError>
        // The transaction is the one that the file was opened in, whose history this is.
        ensures meets { self.old.spent ≡ None → MeetsPuttingText ((x : N) → N.tells x ≡ true) self.old.base self.old.moves (N.txn self.old.own) (N.settled self.old.own) (N.settled self.new.own) opened.now (I.remaining source.old) (I.remaining source.new) expect result }
        ensures stale { self.old.spent ≡ None → IsStaleText opened.now.moves self.old.moves result }
        ensures lacking { self.old.spent ≡ None → LacksNothing self.old.base (N.txn self.old.own) (N.settled self.old.own) opened.now result }
        ensures leads { self.old.spent ≡ None → LeadStill self.old.base (N.txn self.old.own) (N.settled self.old.own) (N.settled self.new.own) opened.now result }
        ensures stays { StaysSpent self.old.spent result (self.new ≡ self.old) }
        ensures spent { IsSpentAfter self.old.spent self.new.spent result }
        ensures moves { self.new.moves ≡ self.old.moves }
        ensures base { self.new.base ≡ self.old.base }
        // The bench's files are those of what the transaction holds, whatever is answered, as long as the bench has not failed.
        ensures folder { HasFiles (N.faults self.new.own) (N.files self.new.own) (N.settled self.new.own) }
        ensures name { N.txn self.new.own ≡ N.txn self.old.own }
        ensures source_cause { HasSourceRise (I.faults source.old) (I.faults source.new) result }
        ensures bench_cause { HasBenchRise (N.faults self.old.own) (N.faults self.new.own) result }
    {
        if let Some(first) = self.spent {
            return Err(TxnError::Spent { first });
        }
        if opened.moves != self.moves {
            return Ok(TextSet::Stale {
                opened: opened.moves,
                now: self.moves,
            });
        }
        if opened.counted {
            return Ok(counted_text(opened.kind));
        }
        match put_settled(alloc, &mut self.own, &opened.way, source, expect) {
            Ok(put) => Ok(from_put(put)),
            Err(error) => Err(self.failed(error)),
        }
    }
}
