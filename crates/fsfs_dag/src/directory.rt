//! The entries of a directory.
ghost use Rattle.std.specs.Prelude.{◌≡◌, ◌++◌, ℕ, List, true, Some, None, IsSome, IfSome, IfOk, map, MatchOption, option_map};
ghost use Rattle.std.specs.String.{string_bytes};
ghost use Rattle.fsfs_base.specs.declared.kind.Kind.{Kind};
ghost use Rattle.fsfs_base.specs.declared.kind.Kind.TheVariants.{Dir};
ghost use Rattle.fsfs_revision.specs.Told.{RevisionBytes, Knows, Keeps};
ghost use Rattle.fsfs_layout.specs.Hash.Reading.{views};
ghost use Rattle.fsfs_revision.specs.Nodes.{place_before};
ghost use Rattle.fsfs_revision.specs.Damage.Readings.{AndThen, Answers};
ghost use Rattle.fsfs_revision.specs.Shows.Reading.{PairsIn, EntriesIn, EntriesOf, IsEntryName, kind_word, named};
ghost use Rattle.fsfs_revision.specs.Damage.Causes.{HasCause, IsQuiet};
ghost use Rattle.fsfs_dag.specs.Views.{entry_value, entry_values, home_of, AreBefore, PutsEntry};

use crate::contents::{hash_in_place, rep_read};
use crate::node::PlacedNode;
use fsfs_base::{Kind, is_name};
use fsfs_noderev::{NodeId, Place, Rep, read_id};
use fsfs_revision::{
    Book, DamageKind, ReadError, RepWhat, RevOffset, bad_rep, is_before, is_revision_id,
};
use std::alloc::Global;

/// An entry of a directory: a name, and the kind and the id of the node-revision that it names.
#[derive(Debug, Drop)]
pub struct DirEntry {
    pub name: String,
    pub kind: Kind,
    pub id: NodeId,
}

// The kind that an entry's value says, and what stands behind the word for it.
fn split_value(value: &[u8]) -> Option<(Kind, &[u8])>
    ensures found { IfSome result (λ p. value.now ≡ kind_word p.0 ++ p.1.now) }
    ensures only { (kind : Kind) (id_text : List ℕ) → value.now ≡ kind_word kind ++ id_text → IsSome result }
{
    match value {
        [b'f', b'i', b'l', b'e', b' ', id_text @ ..] => Some((Kind::File, id_text)),
        [b'd', b'i', b'r', b' ', id_text @ ..] => Some((Kind::Dir, id_text)),
        _ => None,
    }
}

// The name, if a path may have it.
fn name_of(name: &[u8]) -> Option<&str>
    ensures found { IfSome result (λ n. (n.now ≡ name.now) × IsEntryName name.now) }
    ensures only { IsEntryName name.now → IsSome result }
{
    match str::from_utf8(name) {
        Err(_) => None,
        Ok(name) => { if is_name(name) { Some(name) } else { None } }
    }
}

fn stands_before(home: &RevOffset, place: &Place) -> bool
    ensures { result ≡ place_before home.now place.now }
{
    match place {
        Place::At(rev, offset) => is_before(*rev, *offset, home),
        Place::In(_) => false,
    }
}

// Puts the entry that a pair of the dump of the directory at `home` is behind those before it. It goes straight into its
// place, since an id is dear to move.
fn put_entry(
    alloc: Global,
    home: &RevOffset,
    rep: &Rep,
    name: &[u8],
    value: &[u8],
    entries: &mut Vec<DirEntry>,
) -> Result<(), ReadError>
    ensures told { PutsEntry home.now rep.now (name.now, value.now) entries.old.items entries.new.items result }
    ensures quiet { IsQuiet result }
{
    let Some(name) = name_of(name) else {
        return Err(bad_rep(rep, RepWhat::BadName));
    };
    let Some((kind, id_text)) = split_value(value) else {
        return Err(bad_rep(rep, RepWhat::EntryValue));
    };
    let Some(id) = read_id(id_text) else {
        return Err(bad_rep(rep, RepWhat::EntryValue));
    };
    if !is_revision_id(&id) {
        return Err(bad_rep(rep, RepWhat::EntryValue));
    }
    if !stands_before(home, &id.place) {
        return Err(ReadError::damaged(*home, DamageKind::PlaceOrder));
    }
    let Ok(name) = String::from_str(alloc, name) else {
        return Err(ReadError::OutOfMemory);
    };
    if entries.push(DirEntry { name, kind, id }).is_err() {
        return Err(ReadError::OutOfMemory);
    }
    Ok(())
}

// The entries of the pairs, one by one.
fn entries_of(
    alloc: Global,
    home: &RevOffset,
    rep: &Rep,
    pairs: &[(&[u8], &[u8])],
) -> Result<Vec<DirEntry>, ReadError>
    ensures told { Answers (λ v. entry_values v.items) (EntriesIn home.now rep.now (views pairs.now)) result }
    ensures quiet { IsQuiet result }
    ensures before { IfOk result (λ v. AreBefore home.now v.items) }
{
    let mut entries = Vec::new(alloc);
    for pair in pairs {
        put_entry(alloc, home, rep, pair.0, pair.1, &mut entries)?;
    }
    Ok(entries)
}

// The entries of the bytes of a representation.
fn entries_in(
    alloc: Global,
    home: &RevOffset,
    rep: &Rep,
    bytes: &[u8],
) -> Result<Vec<DirEntry>, ReadError>
    ensures told { Answers (λ v. entry_values v.items) (AndThen (PairsIn rep.now bytes.now) (EntriesIn home.now rep.now)) result }
    ensures quiet { IsQuiet result }
    ensures before { IfOk result (λ v. AreBefore home.now v.items) }
{
    let pairs = hash_in_place(alloc, rep, bytes)?;
    entries_of(alloc, home, rep, &pairs)
}

/// The entries of a directory, in byte order of their names. Of its representation Header, EndRep, Size, Md5, Sha1 and Hash
/// are tried in this order, and then entry by entry BadName, EntryValue and PlaceOrder.
pub fn entries<B: Book>(
    alloc: Global,
    book: &mut B,
    dir: &PlacedNode,
) -> Result<Vec<DirEntry>, ReadError>
    requires { dir.now.node.kind ≡ Dir }
    ensures told { (look : RevisionBytes) → Knows (B.told book.old).revs (home_of dir.now.node).rev look → Answers (λ v. entry_values v.items) (EntriesOf look dir.now.node) result }
    ensures before { IfOk result (λ v. AreBefore (home_of dir.now.node) v.items) }
    ensures kept { Keeps (B.told book.old) (B.told book.new) }
    ensures cause { HasCause (B.faults book.old) (B.faults book.new) result }
{
    match dir.text() {
        None => Ok(Vec::new(alloc)),
        Some(rep) => {
            let bytes = rep_read(alloc, book, rep)?;
            entries_in(alloc, &dir.place(), rep, &bytes)
        }
    }
}

/// The entry of a name.
pub fn entry_named<'a>(entries: &'a [DirEntry], name: &str) -> Option<&'a DirEntry>
    ensures { option_map (λ entry. entry_value entry.now) result ≡ named name.now (entry_values entries.now) }
{
    for entry in entries {
        if entry.name.as_str() == name {
            return Some(entry);
        }
    }
    None
}
