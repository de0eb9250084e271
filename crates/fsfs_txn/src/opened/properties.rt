//! A property set or removed at what was opened.
ghost use Rattle.std.specs.Prelude.{◌≡◌, Some};
ghost use Rattle.fsfs_draft.specs.Drafts.{Kept};
ghost use Rattle.fsfs_draft.specs.Steps.{kept_at};
ghost use Rattle.fsfs_draft.specs.Causes.{HasBenchCause};
ghost use Rattle.fsfs_txn.specs.Opened.Leading.{IsSourceKnown, HasAll, LacksNothing, LeadStill};
ghost use Rattle.fsfs_txn.specs.Opened.Properties.{TellsProps, SetsProp, SetsAll, SetsStill, MeetsPutProp};

use crate::opened::known::{Known, find};
use crate::opened::opening::Way;
use crate::opened::reached::{kind_of, reached};
use fsfs_base::{Kind, Pairs, PropName};
use fsfs_draft::{EditError, Own};
use fsfs_edit::{fits, modified, set_props, with_value};
use fsfs_noderev::NodeId;
use std::alloc::Global;

/// What became of a property: it was set or removed, or why it can't be.
#[derive(Clone, Copy)]
pub enum PropertyPut {
    Done,
    /// The value has more than 1,048,576 bytes.
    TooLong,
}

// The properties of an own node-revision: those of its `props` file, or those that are known of what it goes on from.
fn props_known<N: Own>(
    alloc: Global,
    own: &N,
    known: &[Known],
    id: &NodeId,
) -> Result<Pairs, EditError>
    ensures tells { TellsProps (N.folder own.now) known.now id.now result }
    ensures all { (k : Kept) → kept_at (N.folder own.now).nodes id.now ≡ Some k → IsSourceKnown known.now k.node.predecessor → HasAll result }
    ensures bench { HasBenchCause (N.faults own.now) (N.faults own.now) result }
{
    let Some(kept) = own.kept(id) else {
        return Err(EditError::Lacking);
    };
    match &kept.props {
        Some(pairs) => {
            let pairs = pairs.clone()?;
            Ok(pairs)
        }
        None => match &kept.node.predecessor {
            None => Ok(Pairs::new(alloc)),
            Some(from) => match find(known, from) {
                None => Err(EditError::Lacking),
                Some(one) => {
                    let pairs = one.props.clone()?;
                    Ok(pairs)
                }
            },
        },
    }
}

// Sets or removes the property of an own node-revision of this kind, at this path.
fn property_in<N: Own>(
    alloc: Global,
    own: &mut N,
    way: &Way,
    id: &NodeId,
    kind: Kind,
    name: &PropName,
    value: Option<Vec<u8>>,
) -> Result<PropertyPut, EditError>
    ensures sets { SetsProp (N.txn own.old) (N.settled own.old) (N.folder own.old) (N.settled own.new) way.now id.now kind name.now value result }
    ensures all { SetsAll (N.txn own.old) (N.settled own.old) (N.folder own.old) way.now id.now kind result }
    ensures still { SetsStill (N.txn own.old) (N.settled own.old) (N.folder own.old) (N.settled own.new) way.now id.now kind result }
    ensures name { N.txn own.new ≡ N.txn own.old }
    ensures bench { HasBenchCause (N.faults own.old) (N.faults own.new) result }
{
    let pairs = props_known(alloc, own, way.known.as_slice(), id)?;
    let all = with_value(alloc, pairs, name, value)?;
    set_props(own, id, all)?;
    let item = modified(*id, kind, &way.path, false, true)?;
    own.settle(item)?;
    Ok(PropertyPut::Done)
}

fn property_steps<N: Own>(
    alloc: Global,
    own: &mut N,
    way: &Way,
    name: &PropName,
    value: Option<Vec<u8>>,
) -> Result<PropertyPut, EditError>
    requires whole { N.folder own.old ≡ N.settled own.old }
    ensures meets { MeetsPutProp (N.txn own.old) (N.settled own.old) (N.settled own.new) way.now name.now value result }
    ensures all { LacksNothing (N.txn own.old) (N.settled own.old) way.now result }
    ensures still { LeadStill (N.txn own.old) (N.settled own.old) (N.settled own.new) way.now result }
    ensures name { N.txn own.new ≡ N.txn own.old }
    ensures bench { HasBenchCause (N.faults own.old) (N.faults own.new) result }
{
    if !fits(&value) {
        return Ok(PropertyPut::TooLong);
    }
    let id = reached(alloc, own, way)?;
    match kind_of(own, &id) {
        None => Err(EditError::Lacking),
        Some(kind) => property_in(alloc, own, way, &id, kind, name, value),
    }
}

/// Gives what was opened a property, or takes it away where there is no value. No book is read. It is refused where the value is too
/// long. A refusal leaves the transaction as it was, and so does every failure but the bench's.
pub fn put_property<N: Own>(
    alloc: Global,
    own: &mut N,
    way: &Way,
    name: &PropName,
    value: Option<Vec<u8>>,
) -> Result<PropertyPut, EditError>
    requires whole { N.folder own.old ≡ N.settled own.old }
    ensures meets { MeetsPutProp (N.txn own.old) (N.settled own.old) (N.settled own.new) way.now name.now value result }
    ensures all { LacksNothing (N.txn own.old) (N.settled own.old) way.now result }
    ensures still { LeadStill (N.txn own.old) (N.settled own.old) (N.settled own.new) way.now result }
    ensures whole { N.folder own.new ≡ N.settled own.new }
    ensures name { N.txn own.new ≡ N.txn own.old }
    ensures bench { HasBenchCause (N.faults own.old) (N.faults own.new) result }
{
    let put = property_steps(alloc, own, way, name, value);
    own.forget();
    put
}
