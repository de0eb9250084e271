// What bytes are read as.
use crate::changed_paths::{put_of_revision, put_of_txn};
use crate::nodes::{put_children, put_dump, put_name, put_noderev};
use crate::representations::put_bytes;
use crate::small_files::{
    put_current, put_floor, put_format, put_manifest, put_next_ids, put_txn_current, put_uuid,
};
use crate::texts::{
    put_base36, put_decimal, put_id_text, put_path_text, put_prop_name, put_txn_files,
};
use crate::trailers::{put_root, put_tail, put_whole};
use crate::walks::{put_node_at, put_youngest};
use fsfs_memory::{Transcript, cut};
use fsfs_revision::Digester;
use std::alloc::Global;
use std::collections::BTreeMap;

/// Texts by their names.
pub type Texts = BTreeMap<String, Vec<u8>>;

// Bytes, the word that their format has behind its name, and the other texts.
#[derive(Clone, Copy)]
struct Given<'a> {
    texts: &'a Texts,
    with: &'a str,
    bytes: &'a [u8],
}

// The text of a name; no bytes where none has it.
fn named<'a>(texts: &'a Texts, name: &str) -> &'a [u8] {
    match texts.get(name) {
        Some(bytes) => bytes.as_slice(),
        None => &[],
    }
}

fn put_digests(out: &mut Transcript, bytes: &[u8]) {
    let mut digester = Digester::new();
    digester.update(bytes);
    let (md5, sha1) = digester.finish();
    out.digits(&md5.bytes);
    out.say(" ");
    out.digits(&sha1.bytes);
}

// A representation, or a node, and what stands beside it.
fn put_beside(out: &mut Transcript, alloc: Global, word: &str, of: &Given<'_>) {
    let first = named(of.texts, "r0");
    let other = named(of.texts, of.with);
    match word {
        "representation" => put_bytes(out, alloc, of.bytes, first, other),
        "as-r0" => put_bytes(out, alloc, other, of.bytes, named(of.texts, "r1")),
        "as-r1" => put_bytes(out, alloc, other, first, of.bytes),
        "node" => put_node_at(out, alloc, first, of.bytes, of.with),
        "youngest" => put_youngest(out, alloc, first, of.bytes),
        _ => out.say("? no such format"),
    }
}

// A field of a file.
fn put_field(out: &mut Transcript, alloc: Global, word: &str, of: &Given<'_>) {
    match word {
        "decimal" => put_decimal(out, alloc, of.bytes),
        "base-36" => put_base36(out, alloc, of.bytes),
        "property-name" => put_prop_name(out, alloc, of.bytes),
        "path" => put_path_text(out, alloc, of.bytes),
        "id" => put_id_text(out, alloc, of.bytes),
        "name" => put_name(out, of.bytes),
        "transaction" => put_txn_files(out, of.bytes),
        "digests" => put_digests(out, of.bytes),
        _ => put_beside(out, alloc, word, of),
    }
}

// A part of a revision, or of a transaction.
fn put_part(out: &mut Transcript, alloc: Global, word: &str, of: &Given<'_>) {
    match word {
        "dump" => put_dump(out, alloc, of.bytes),
        "children" => put_children(out, alloc, of.bytes),
        "node-revision" => put_noderev(out, alloc, of.bytes),
        "changes" => put_of_revision(out, alloc, of.bytes),
        "transaction-changes" => put_of_txn(out, alloc, of.bytes),
        "trailer" => put_whole(out, alloc, of.bytes),
        "trailer-from" => put_tail(out, of.with, of.bytes),
        "root" => put_root(out, alloc, of.with, of.bytes),
        _ => put_field(out, alloc, word, of),
    }
}

/// Writes what bytes are, read in a format: the value, or where it is refused.
pub fn put_reading(out: &mut Transcript, alloc: Global, texts: &Texts, format: &str, bytes: &[u8]) {
    let (word, with) = cut(format);
    match word {
        "format" => put_format(out, bytes),
        "uuid" => put_uuid(out, alloc, bytes),
        "current" => put_current(out, alloc, bytes),
        "min-unpacked-rev" => put_floor(out, with, bytes),
        "txn-current" => put_txn_current(out, alloc, bytes),
        "next-ids" => put_next_ids(out, alloc, bytes),
        "manifest" => put_manifest(out, alloc, with, bytes),
        _ => put_part(out, alloc, word, &Given { texts, with, bytes }),
    }
}
