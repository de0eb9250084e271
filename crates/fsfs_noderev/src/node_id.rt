//! Ids of node-revisions.
ghost use Rattle.std.specs.Prelude.{◌≡◌, ℕ, List, option_map, IfSome, IsSomeAnd, IfOk, OnOk};
ghost use Rattle.fsfs_base.specs.Grammar.Relations.{Appends};
ghost use Rattle.fsfs_noderev.specs.Ids.{IdValue, part_value, place_value, id_value, IsPart, IsPlace, IsId, part_at, place_at, id_at};

use fsfs_base::base36::{plain_base36, put_b36};
use fsfs_base::cuts::cut_at;
use fsfs_base::decimals::{plain_decimal, put_dec};
use fsfs_base::{B36, RevNum, TxnName, plain_txn_name, put_txn_name};
use std::alloc::{AllocError, Global};

/// The node part or the copy part of an id.
#[derive(Clone, Copy, Debug)]
pub enum Part {
    /// `_<number>`: made in the transaction.
    New(B36),
    /// `<number>`: of revision 0.
    Old(B36),
    /// `<number>-<revision>`: made in this revision.
    Made(B36, RevNum),
}

/// Where a node-revision stands.
#[derive(Clone, Copy, Debug)]
pub enum Place {
    /// `r<revision>/<offset>`: the offset counts from the beginning of the revision's own bytes.
    At(RevNum, u64),
    /// `t<transaction>`.
    In(TxnName),
}

/// The id of a node-revision, `<node>.<copy>.<place>`.
#[derive(Clone, Copy, Debug)]
pub struct NodeId {
    pub node: Part,
    pub copy: Part,
    pub place: Place,
}

#[tactic(auto, unfolding(crate::specs::Ids::part_at))]
fn part_of(text: &[u8]) -> Option<Part>
    ensures { option_map part_value result ≡ part_at text.now }
{
    match text {
        [] => None,
        [b'_', rest @ ..] => {
            let n = plain_base36(rest)?;
            Some(Part::New(n))
        }
        [_, ..] => match cut_at(b'-', text) {
            None => {
                let n = plain_base36(text)?;
                Some(Part::Old(n))
            }
            Some((front, rest)) => {
                let n = plain_base36(front)?;
                let rev = RevNum::plain(rest)?;
                Some(Part::Made(n, rev))
            }
        },
    }
}

#[tactic(auto, unfolding(crate::specs::Ids::place_at))]
fn place_of(text: &[u8]) -> Option<Place>
    ensures { option_map place_value result ≡ place_at text.now }
{
    match text {
        [] => None,
        [b'r', rest @ ..] => {
            let (front, rest) = cut_at(b'/', rest)?;
            let rev = RevNum::plain(front)?;
            let offset = plain_decimal(u64::MAX, rest)?;
            Some(Place::At(rev, offset))
        }
        [b't', rest @ ..] => {
            let txn = plain_txn_name(rest)?;
            Some(Place::In(txn))
        }
        _ => None,
    }
}

#[tactic(auto, unfolding(crate::specs::Ids::id_at))]
pub(crate) fn id_of(text: &[u8]) -> Option<NodeId>
    ensures { option_map id_value result ≡ id_at text.now }
{
    let (front, rest) = cut_at(b'.', text)?;
    let node = part_of(front)?;
    let (front, rest) = cut_at(b'.', rest)?;
    let copy = part_of(front)?;
    let place = place_of(rest)?;
    Some(NodeId { node, copy, place })
}

/// The id that a text is; none for any other text.
pub fn read_id(text: &[u8]) -> Option<NodeId>
    ensures found { IfSome result (λ id. IsId text.now (id_value id)) }
    ensures only { (v : IdValue) → IsId text.now v → IsSomeAnd result (λ id. id_value id ≡ v) }
{
    id_of(text)
}

fn put_part(out: &mut Vec<u8>, part: Part) -> Result<(), AllocError>
    ensures { OnOk result (Appends IsPart out.old.items out.new.items (part_value part)) }
{
    match part {
        Part::New(n) => {
            out.push(b'_')?;
            put_b36(out, &n)?;
            Ok(())
        }
        Part::Old(n) => {
            put_b36(out, &n)?;
            Ok(())
        }
        Part::Made(n, rev) => {
            put_b36(out, &n)?;
            out.push(b'-')?;
            rev.put(out)?;
            Ok(())
        }
    }
}

fn put_place(out: &mut Vec<u8>, place: Place) -> Result<(), AllocError>
    ensures { OnOk result (Appends IsPlace out.old.items out.new.items (place_value place)) }
{
    match place {
        Place::At(rev, offset) => {
            out.push(b'r')?;
            rev.put(out)?;
            out.push(b'/')?;
            put_dec(out, offset)?;
            Ok(())
        }
        Place::In(txn) => {
            out.push(b't')?;
            put_txn_name(out, &txn)?;
            Ok(())
        }
    }
}

/// Writes the text of an id at the end.
pub fn put_id(out: &mut Vec<u8>, id: &NodeId) -> Result<(), AllocError>
    ensures { OnOk result (Appends IsId out.old.items out.new.items (id_value id.now)) }
{
    put_part(out, id.node)?;
    out.push(b'.')?;
    put_part(out, id.copy)?;
    out.push(b'.')?;
    put_place(out, id.place)?;
    Ok(())
}

/// The text of an id.
pub fn write_id(alloc: Global, id: &NodeId) -> Result<Vec<u8>, AllocError>
    ensures { IfOk result (λ v. IsId v.items (id_value id.now)) }
{
    let mut out = Vec::new(alloc);
    put_id(&mut out, id)?;
    Ok(out)
}
