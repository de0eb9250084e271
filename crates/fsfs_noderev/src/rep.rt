//! Where a text, a property list or a directory stands.
ghost use Rattle.std.specs.Prelude.{◌≡◌, ℕ, List, option_map, IfSome, IsSomeAnd, IfOk, OnOk, codes};
ghost use Rattle.fsfs_base.specs.Grammar.Relations.{Appends};
ghost use Rattle.fsfs_base.specs.Fields.Digests.{IsDigestText};
ghost use Rattle.fsfs_noderev.specs.Reps.{RepValue, ContentsValue, unique_value, rep_value, contents_value, IsRevOrNone, IsMarked, IsUnique, AreDigests, IsRep, AreContents, rev_or_none_at, digest_at, marked_at, unique_at, digests_at, rep_at, contents_at};

use fsfs_base::base36::{plain_base36, put_b36};
use fsfs_base::cuts::cut_at;
use fsfs_base::decimals::{plain_decimal, put_dec};
use fsfs_base::{B36, HexDigest, RevNum, TxnName, plain_txn_name, put_txn_name};
use std::alloc::{AllocError, Global};

/// What a file's representation has beside its MD5.
#[derive(Clone, Copy, Debug, PartialEq, Eq)]
pub struct Uniquifier {
    pub sha1: HexDigest<20>,
    /// The transaction that wrote the text, and a number that it drew for it.
    pub txn: TxnName,
    pub number: B36,
}

/// A representation: where a text stands in a revision, and what it holds.
#[derive(Clone, Copy, Debug, PartialEq, Eq)]
pub struct Rep {
    /// The revision; none where the text stands in the prototype file of a transaction.
    pub rev: Option<RevNum>,
    /// Where its header begins, from the beginning of the revision's own bytes.
    pub offset: u64,
    /// How many bytes stand between header and trailer.
    pub length: u64,
    /// How many bytes the text has; 0 means `length`.
    pub size: u64,
    pub md5: HexDigest<16>,
    pub unique: Option<Uniquifier>,
}

/// Where a node-revision's text or property list stands.
#[derive(Clone, Copy, Debug, PartialEq, Eq)]
pub enum Contents {
    /// `-1`: in the file of its own that the transaction has for it.
    Own,
    At(Rep),
}

pub(crate) fn rev_or_none(text: &[u8]) -> Option<Option<RevNum>>
    ensures { result ≡ rev_or_none_at text.now }
{
    if text == b"-1".as_slice() {
        return Some(None);
    }
    let rev = RevNum::plain(text)?;
    Some(Some(rev))
}

fn md5_of(text: &[u8]) -> Option<HexDigest<16>>
    ensures { option_map (λ d. d.bytes) result ≡ digest_at 16 text.now }
{
    HexDigest::<16>::read(text)
}

fn sha1_of(text: &[u8]) -> Option<HexDigest<20>>
    ensures { option_map (λ d. d.bytes) result ≡ digest_at 20 text.now }
{
    HexDigest::<20>::read(text)
}

#[tactic(auto, unfolding(crate::specs::Reps::marked_at))]
fn marked(text: &[u8]) -> Option<B36>
    ensures { option_map (λ b. b.number) result ≡ marked_at text.now }
{
    match text {
        [b'_', rest @ ..] => plain_base36(rest),
        _ => None,
    }
}

#[tactic(auto, unfolding(crate::specs::Reps::unique_at))]
fn unique_of(text: &[u8]) -> Option<Uniquifier>
    ensures { option_map unique_value result ≡ unique_at text.now }
{
    let (front, rest) = cut_at(b' ', text)?;
    let sha1 = sha1_of(front)?;
    let (front, rest) = cut_at(b'/', rest)?;
    let txn = plain_txn_name(front)?;
    let number = marked(rest)?;
    Some(Uniquifier { sha1, txn, number })
}

#[tactic(auto, unfolding(crate::specs::Reps::digests_at))]
fn digests_of(text: &[u8]) -> Option<(HexDigest<16>, Option<Uniquifier>)>
    ensures { option_map (λ p. (p.0.bytes, option_map unique_value p.1)) result ≡ digests_at text.now }
{
    match cut_at(b' ', text) {
        None => {
            let md5 = md5_of(text)?;
            Some((md5, None))
        }
        Some((front, rest)) => {
            let md5 = md5_of(front)?;
            match unique_of(rest) {
                None => None,
                Some(unique) => Some((md5, Some(unique))),
            }
        }
    }
}

#[tactic(auto, unfolding(crate::specs::Reps::rep_at))]
fn rep_of(text: &[u8]) -> Option<Rep>
    ensures { option_map rep_value result ≡ rep_at text.now }
{
    let (front, rest) = cut_at(b' ', text)?;
    let rev = rev_or_none(front)?;
    let (front, rest) = cut_at(b' ', rest)?;
    let offset = plain_decimal(u64::MAX, front)?;
    let (front, rest) = cut_at(b' ', rest)?;
    let length = plain_decimal(u64::MAX, front)?;
    let (front, rest) = cut_at(b' ', rest)?;
    let size = plain_decimal(u64::MAX, front)?;
    match digests_of(rest) {
        None => None,
        Some((md5, unique)) => Some(Rep {
            rev,
            offset,
            length,
            size,
            md5,
            unique,
        }),
    }
}

#[tactic(auto, unfolding(crate::specs::Reps::contents_at))]
fn contents_of(text: &[u8]) -> Option<Contents>
    ensures { option_map contents_value result ≡ contents_at text.now }
{
    if text == b"-1".as_slice() {
        return Some(Contents::Own);
    }
    match rep_of(text) {
        None => None,
        Some(rep) => Some(Contents::At(rep)),
    }
}

/// The representation that a text is; none for any other text.
pub fn read_rep(text: &[u8]) -> Option<Rep>
    ensures found { IfSome result (λ r. IsRep text.now (rep_value r)) }
    ensures only { (v : RepValue) → IsRep text.now v → IsSomeAnd result (λ r. rep_value r ≡ v) }
{
    rep_of(text)
}

/// Where the text of a field says that its value stands; none for any other text.
pub fn read_contents(text: &[u8]) -> Option<Contents>
    ensures found { IfSome result (λ k. AreContents text.now (contents_value k)) }
    ensures only { (v : ContentsValue) → AreContents text.now v → IsSomeAnd result (λ k. contents_value k ≡ v) }
{
    contents_of(text)
}

pub(crate) fn put_rev_or_none(out: &mut Vec<u8>, rev: Option<RevNum>) -> Result<(), AllocError>
    ensures { OnOk result (Appends IsRevOrNone out.old.items out.new.items rev) }
{
    match rev {
        None => {
            out.extend_from_slice(b"-1")?;
            Ok(())
        }
        Some(rev) => {
            rev.put(out)?;
            Ok(())
        }
    }
}

fn put_md5(alloc: Global, out: &mut Vec<u8>, md5: &HexDigest<16>) -> Result<(), AllocError>
    ensures { OnOk result (Appends (IsDigestText 16) out.old.items out.new.items md5.now.bytes) }
{
    let text = md5.write(alloc)?;
    out.extend_from_slice(&text)?;
    Ok(())
}

fn put_sha1(alloc: Global, out: &mut Vec<u8>, sha1: &HexDigest<20>) -> Result<(), AllocError>
    ensures { OnOk result (Appends (IsDigestText 20) out.old.items out.new.items sha1.now.bytes) }
{
    let text = sha1.write(alloc)?;
    out.extend_from_slice(&text)?;
    Ok(())
}

fn put_unique(alloc: Global, out: &mut Vec<u8>, unique: &Uniquifier) -> Result<(), AllocError>
    ensures { OnOk result (Appends IsUnique out.old.items out.new.items (unique_value unique.now)) }
{
    put_sha1(alloc, out, &unique.sha1)?;
    out.push(b' ')?;
    put_txn_name(out, &unique.txn)?;
    out.push(b'/')?;
    out.push(b'_')?;
    put_b36(out, &unique.number)?;
    Ok(())
}

fn put_digests(alloc: Global, out: &mut Vec<u8>, rep: &Rep) -> Result<(), AllocError>
    ensures { OnOk result (Appends AreDigests out.old.items out.new.items (rep.now.md5.bytes, option_map unique_value rep.now.unique)) }
{
    put_md5(alloc, out, &rep.md5)?;
    match &rep.unique {
        None => Ok(()),
        Some(unique) => {
            out.push(b' ')?;
            put_unique(alloc, out, unique)?;
            Ok(())
        }
    }
}

/// Writes a representation's text at the end.
pub fn put_rep(alloc: Global, out: &mut Vec<u8>, rep: &Rep) -> Result<(), AllocError>
    ensures { OnOk result (Appends IsRep out.old.items out.new.items (rep_value rep.now)) }
{
    put_rev_or_none(out, rep.rev)?;
    out.push(b' ')?;
    put_dec(out, rep.offset)?;
    out.push(b' ')?;
    put_dec(out, rep.length)?;
    out.push(b' ')?;
    put_dec(out, rep.size)?;
    out.push(b' ')?;
    put_digests(alloc, out, rep)?;
    Ok(())
}

/// Writes at the end where a value stands.
pub fn put_contents(alloc: Global, out: &mut Vec<u8>, contents: &Contents) -> Result<(), AllocError>
    ensures { OnOk result (Appends AreContents out.old.items out.new.items (contents_value contents.now)) }
{
    match contents {
        Contents::Own => {
            out.extend_from_slice(b"-1")?;
            Ok(())
        }
        Contents::At(rep) => {
            put_rep(alloc, out, rep)?;
            Ok(())
        }
    }
}
