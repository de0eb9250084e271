//! Properties set or removed at what was opened.
ghost use Rattle.std.specs.Prelude.{◌≡◌, None};
ghost use Rattle.fsfs_txn_nodes.specs.Memory.Written.{HasFiles};
ghost use Rattle.fsfs_draft.specs.Causes as causes;
ghost use Rattle.fsfs_txn.specs.Opened.Leading as leading;
ghost use Rattle.fsfs_txn.specs.Opened.Properties.{MeetsPutProp};
ghost use Rattle.fsfs_txn.specs.Leading.{LacksNothing, LeadStill};
ghost use Rattle.fsfs_txn.specs.Spending.{IsSpentAfter, StaysSpent, HasBenchCause};
ghost use Rattle.fsfs_txn.specs.Edits.Properties.{is_mergeinfo, outcome_of, MeetsSettingProp, IsStaleProp};

use crate::opened::properties::put_property;
use crate::opening::Opened;
use crate::txn::Txn;
use crate::txn_error::TxnError;
use crate::{PropertyPut, Way};
use fsfs_base::PropName;
use fsfs_draft::{EditError, Own};
use fsfs_txn_nodes::OwnFiles;
use std::alloc::Global;

/// What became of a property: it was set or removed, or why it can't be.
#[derive(Clone, Copy)]
pub enum PropertySet {
    Done,
    /// A node was made, copied or taken away since it was opened, or the transaction landed on a later revision: so many such moves
    /// there were then, and so many there are now.
    Stale { opened: u64, now: u64 },
    /// What would be changed has counts of mergeinfo, or the base's root has, or the property is `svn:mergeinfo`.
    Mergeinfo,
    /// The value has more than 1,048,576 bytes.
    TooLong,
}

fn from_put(put: PropertyPut) -> PropertySet
    ensures { result ≡ outcome_of put }
{
    match put {
        PropertyPut::Done => PropertySet::Done,
        PropertyPut::TooLong => PropertySet::TooLong,
    }
}

fn is_mergeinfo(name: &PropName) -> bool
    ensures { result ≡ is_mergeinfo name.now }
{
    name.as_str() == "svn:mergeinfo"
}

// Sets or removes the property. What an earlier failure left unsettled is forgotten first.
fn set_settled<N: Own>(
    alloc: Global,
    own: &mut N,
    way: &Way,
    name: &PropName,
    value: Option<Vec<u8>>,
) -> Result<PropertyPut, EditError>
    ensures meets { MeetsPutProp (N.txn own.old) (N.settled own.old) (N.settled own.new) way.now name.now value result }
    ensures all { leading.LacksNothing (N.txn own.old) (N.settled own.old) way.now result }
    ensures still { leading.LeadStill (N.txn own.old) (N.settled own.old) (N.settled own.new) way.now result }
    ensures name { N.txn own.new ≡ N.txn own.old }
    ensures bench { causes.HasBenchCause (N.faults own.old) (N.faults own.new) result }
{
    own.forget();
    put_property(alloc, own, way, name, value)
}

impl<N: OwnFiles> Txn<N> {
    /// Gives what was opened a property, or takes it away where there is no value; one that is absent is taken away too. No book is
    /// read. It is refused where the opening is stale, where counts of mergeinfo would have to change, or where the value has more than
    /// 1,048,576 bytes, in this order. A refusal leaves the transaction as it was, and so does every failure but the bench's, which
    /// spends it.
    pub fn set_prop(
        &mut self,
        alloc: Global,
        opened: &Opened,
        name: &PropName,
        value: Option<Vec<u8>>,
    ) -> Result<PropertySet, TxnError>
        // The transaction is the one that the node was opened in, whose history this is.
        ensures meets { self.old.spent ≡ None → MeetsSettingProp self.old.base self.old.moves (N.txn self.old.own) (N.settled self.old.own) (N.settled self.new.own) opened.now name.now value result }
        ensures stale { self.old.spent ≡ None → IsStaleProp opened.now.moves self.old.moves result }
        ensures lacking { self.old.spent ≡ None → LacksNothing self.old.base (N.txn self.old.own) (N.settled self.old.own) opened.now result }
        ensures leads { self.old.spent ≡ None → LeadStill self.old.base (N.txn self.old.own) (N.settled self.old.own) (N.settled self.new.own) opened.now result }
        ensures stays { StaysSpent self.old.spent result (self.new ≡ self.old) }
        ensures spent { IsSpentAfter self.old.spent self.new.spent result }
        ensures moves { self.new.moves ≡ self.old.moves }
        ensures base { self.new.base ≡ self.old.base }
        // The bench's files are those of what the transaction holds, whatever is answered, as long as the bench has not failed.
        ensures folder { HasFiles (N.faults self.new.own) (N.files self.new.own) (N.settled self.new.own) }
        ensures name { N.txn self.new.own ≡ N.txn self.old.own }
        ensures bench { HasBenchCause (N.faults self.old.own) (N.faults self.new.own) result }
    {
        if let Some(first) = self.spent {
            return Err(TxnError::Spent { first });
        }
        if opened.moves != self.moves {
            return Ok(PropertySet::Stale {
                opened: opened.moves,
                now: self.moves,
            });
        }
        if opened.counted || is_mergeinfo(name) {
            return Ok(PropertySet::Mergeinfo);
        }
        match set_settled(alloc, &mut self.own, &opened.way, name, value) {
            Ok(put) => Ok(from_put(put)),
            Err(error) => Err(self.failed(error)),
        }
    }
}
