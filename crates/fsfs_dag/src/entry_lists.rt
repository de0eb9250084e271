//! The entries of a directory, as names with values.
ghost use Rattle.std.specs.Prelude.{◌≡◌, ◌≤◌, ◌++◌, ◌∷◌, [], true, List, length, IfOk, OnOk};
ghost use Rattle.fsfs_revision.specs.Nodes.{is_revision_id};
ghost use Rattle.fsfs_revision.specs.Shows.Reading.{DirEntry as Entry, kind_word as word_of, IsEntryValue};
ghost use Rattle.fsfs_dag.specs.Entries.{IsEntryText, LeadTo, HasFirsts, ListsEntries};
ghost use Rattle.fsfs_dag.specs.Views.{entry_value, entry_values};

use crate::directory::DirEntry;
use fsfs_base::{Kind, Pairs};
use fsfs_noderev::{NodeId, put_id};
use std::alloc::{AllocError, Global};

fn kind_word(kind: Kind) -> &'static [u8]
    ensures { result.now ≡ word_of kind }
{
    match kind {
        Kind::File => b"file ",
        Kind::Dir => b"dir ",
    }
}

/// The value of an entry: the kind and the id of what it names.
pub fn entry_text(alloc: Global, kind: Kind, id: &NodeId) -> Result<Vec<u8>, AllocError>
    ensures told { IfOk result (λ value. IsEntryText value.items kind id.now) }
    ensures value { is_revision_id id.now ≡ true → IfOk result (λ value. IsEntryValue value.items kind id.now) }
    ensures short { IfOk result (λ value. length value.items ≤ 117) }
{
    let mut value = Vec::from_slice(alloc, kind_word(kind))?;
    put_id(&mut value, id)?;
    Ok(value)
}

// Gives the entry's name its value, if it has none yet.
fn put_first(alloc: Global, pairs: &mut Pairs, entry: &DirEntry) -> Result<(), AllocError>
    ensures lead { (earlier : List Entry) → LeadTo earlier pairs.old → OnOk result (LeadTo (earlier ++ entry_value entry.now ∷ []) pairs.new) }
    ensures firsts { (earlier : List Entry) → HasFirsts earlier pairs.old → OnOk result (HasFirsts (earlier ++ entry_value entry.now ∷ []) pairs.new) }
{
    let name = entry.name.as_str().as_bytes();
    if pairs.get(name).is_some() {
        return Ok(());
    }
    let value = entry_text(alloc, entry.kind, &entry.id)?;
    let key = Vec::from_slice(alloc, name)?;
    pairs.set(key, value)?;
    Ok(())
}

/// The list of a directory with these entries, in byte order of their names; the first entry of a name counts.
pub fn entry_pairs(alloc: Global, entries: &[DirEntry]) -> Result<Pairs, AllocError>
    ensures lead { IfOk result (LeadTo (entry_values entries.now)) }
    ensures lists { IfOk result (ListsEntries (entry_values entries.now)) }
{
    let mut pairs = Pairs::new(alloc);
    for entry in entries {
        put_first(alloc, &mut pairs, entry)?;
    }
    Ok(pairs)
}
