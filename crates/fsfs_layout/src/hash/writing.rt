//! Writing dumps, and records of a `children` file.
ghost use Rattle.std.specs.Prelude.{◌≡◌, ◌++◌, ℕ, List, OnOk, IfOk};
ghost use Rattle.std.specs.List.{flat_map};
ghost use Rattle.fsfs_base.specs.Grammar.Relations.{Appends};
ghost use Rattle.fsfs_layout.specs.Hash.Dump.{Field, Pair, Entries, IsDump, dump_text, pair_text, put};
ghost use Rattle.fsfs_layout.specs.Hash.Children.{IsChildren, without};

use fsfs_base::Pairs;
use fsfs_base::decimals::put_decimal;
use std::alloc::{AllocError, Global};

fn put_field(out: &mut Vec<u8>, letter: u8, bytes: &[u8]) -> Result<(), AllocError>
    ensures { OnOk result (Appends (Field letter) out.old.items out.new.items bytes.now) }
{
    out.extend_from_slice(&[letter, b' '])?;
    put_decimal(out, bytes.len() as u64, b'\n')?;
    out.extend_from_slice(bytes)?;
    out.extend_from_slice(&[b'\n'])?;
    Ok(())
}

/// Writes an entry of a dump, or a record of a `children` file's tail, at the end.
pub fn add_entry(out: &mut Vec<u8>, name: &[u8], value: &[u8]) -> Result<(), AllocError>
    ensures entry { OnOk result (Appends Pair out.old.items out.new.items (name.now, value.now)) }
    // A children file has this pair from then on.
    ensures children { (pairs : List (List ℕ × List ℕ)) → IsChildren out.old.items pairs → OnOk result (IsChildren out.new.items (put pairs (name.now, value.now))) }
{
    put_field(out, b'K', name)?;
    put_field(out, b'V', value)?;
    Ok(())
}

/// Writes the record of a `children` file's tail that takes the name away.
pub fn drop_entry(out: &mut Vec<u8>, name: &[u8]) -> Result<(), AllocError>
    ensures record_of { OnOk result (Appends (Field 68) out.old.items out.new.items name.now) }
    // A children file lacks the name from then on.
    ensures children { (pairs : List (List ℕ × List ℕ)) → IsChildren out.old.items pairs → OnOk result (IsChildren out.new.items (without pairs name.now)) }
{
    put_field(out, b'D', name)?;
    Ok(())
}

/// Puts the pairs as they stand in a dump, keys in byte order, without its end.
pub fn put_pairs(out: &mut Vec<u8>, pairs: &Pairs) -> Result<(), AllocError>
    ensures text { OnOk result (out.new.items ≡ out.old.items ++ flat_map pair_text pairs.now) }
    // With its end they are a dump.
    ensures entries { OnOk result (Entries (dump_text pairs.now) pairs.now) }
{
    let map = pairs.as_map();
    for (key, value) in map {
        put_field(out, b'K', key)?;
        put_field(out, b'V', value)?;
    }
    Ok(())
}

/// The dump of the pairs, keys in byte order.
pub fn write_hash(alloc: Global, pairs: &Pairs) -> Result<Vec<u8>, AllocError>
    ensures dump { IfOk result (λ v. IsDump v.items pairs.now) }
    ensures in_order { IfOk result (λ v. Entries v.items pairs.now) }
    ensures text { IfOk result (λ v. v.items ≡ dump_text pairs.now) }
{
    let map = pairs.as_map();
    let _count = map.len();
    let mut out = Vec::new(alloc);
    put_pairs(&mut out, pairs)?;
    out.extend_from_slice(b"END\n")?;
    Ok(out)
}
