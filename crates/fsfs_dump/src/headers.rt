//! The headers of records.
ghost use Rattle.std.specs.Prelude.{◌≡◌, ◌++◌, ◌+◌, OnOk, option_map, codes};
ghost use Rattle.hex.specs.Hex.{encode_lower};
ghost use Rattle.fsfs_dump.specs.Records.{header, number_header, dump_path, kind_word, source_headers, text_headers, block_header, length_header, what_headers, size_headers, delete_record, delete_first, action_word, records_head};
ghost use Rattle.fsfs_dump.specs.Readings.{source_of};
ghost use Rattle.fsfs_dump.specs.Views.{block_value, facts_value};

use crate::facts::Facts;
use fsfs_base::{Action, FsPath, HexDigest, Kind};
use fsfs_noderev::{ChangeItem, CopySource};
use hex::encode;
use itoa::Buffer;
use std::alloc::{AllocError, Global};

/// Puts a header and the end of its line.
pub(crate) fn put_header(lines: &mut Vec<u8>, name: &[u8], value: &[u8]) -> Result<(), AllocError>
    ensures { OnOk result (lines.new.items ≡ lines.old.items ++ header name.now value.now) }
{
    lines.extend_from_slice(name)?;
    lines.extend_from_slice(b": ")?;
    lines.extend_from_slice(value)?;
    lines.extend_from_slice(b"\n")?;
    Ok(())
}

/// Puts the header of a number.
pub(crate) fn put_number(lines: &mut Vec<u8>, name: &[u8], number: u64) -> Result<(), AllocError>
    ensures { OnOk result (lines.new.items ≡ lines.old.items ++ number_header name.now number) }
{
    let mut buffer = Buffer::new();
    put_header(lines, name, buffer.format(number).as_bytes())
}

// Puts the header of a path, without its first `/`.
fn put_path(
    alloc: Global,
    lines: &mut Vec<u8>,
    name: &[u8],
    path: &FsPath,
) -> Result<(), AllocError>
    ensures { OnOk result (lines.new.items ≡ lines.old.items ++ header name.now (dump_path path.now)) }
{
    let mut text = Vec::new(alloc);
    path.put_text(&mut text)?;
    put_header(lines, name, &text[1..])
}

fn word_of(kind: Kind) -> &'static [u8]
    ensures { result.now ≡ kind_word kind }
{
    match kind {
        Kind::File => b"file",
        Kind::Dir => b"dir",
    }
}

fn verb_of(action: Action) -> &'static [u8]
    ensures { result.now ≡ action_word action }
{
    match action {
        Action::Add | Action::Replace => b"add",
        Action::Modify => b"change",
        Action::Delete => b"delete",
    }
}

// Puts the revision and the path of a copy's source, where there is one.
fn put_source(
    alloc: Global,
    lines: &mut Vec<u8>,
    source: &Option<CopySource>,
) -> Result<(), AllocError>
    ensures { OnOk result (lines.new.items ≡ lines.old.items ++ source_headers (option_map (λ s. (s.rev, s.path)) source.now)) }
{
    match source {
        None => Ok(()),
        Some(from) => {
            put_number(lines, b"Node-copyfrom-rev", from.rev.get() as u64)?;
            put_path(alloc, lines, b"Node-copyfrom-path", &from.path)
        }
    }
}

// Puts how long a block of properties is, where one stands.
fn put_block_len(lines: &mut Vec<u8>, block: &Option<Vec<u8>>) -> Result<(), AllocError>
    ensures { OnOk result (lines.new.items ≡ lines.old.items ++ block_header (block_value block.now)) }
{
    match block {
        None => Ok(()),
        Some(block) => put_number(lines, b"Prop-content-length", block.len() as u64),
    }
}

// Puts the digits of a digest behind a header's name.
fn put_digest(
    alloc: Global,
    lines: &mut Vec<u8>,
    name: &[u8],
    digest: &[u8],
) -> Result<(), AllocError>
    ensures { OnOk result (lines.new.items ≡ lines.old.items ++ header name.now (encode_lower digest.now)) }
{
    let digits = encode(alloc, digest)?;
    put_header(lines, name, digits.as_bytes())
}

fn put_md5(alloc: Global, lines: &mut Vec<u8>, md5: &HexDigest<16>) -> Result<(), AllocError>
    ensures { OnOk result (lines.new.items ≡ lines.old.items ++ header (codes "Text-content-md5") (encode_lower md5.now.bytes)) }
{
    put_digest(alloc, lines, b"Text-content-md5", md5.bytes.as_slice())
}

fn put_sha1(alloc: Global, lines: &mut Vec<u8>, sha1: &HexDigest<20>) -> Result<(), AllocError>
    ensures { OnOk result (lines.new.items ≡ lines.old.items ++ header (codes "Text-content-sha1") (encode_lower sha1.now.bytes)) }
{
    put_digest(alloc, lines, b"Text-content-sha1", sha1.bytes.as_slice())
}

// Puts how long a text is, and its digests, where one stands.
fn put_facts(alloc: Global, lines: &mut Vec<u8>, facts: &Option<Facts>) -> Result<(), AllocError>
    ensures { OnOk result (lines.new.items ≡ lines.old.items ++ text_headers (option_map facts_value facts.now)) }
{
    match facts {
        None => Ok(()),
        Some(facts) => {
            put_number(lines, b"Text-content-length", facts.size)?;
            put_md5(alloc, lines, &facts.md5)?;
            put_sha1(alloc, lines, &facts.sha1)?;
            Ok(())
        }
    }
}

// Puts a length that is a sum, which has no room above the numbers of 64 bits.
fn put_sum(lines: &mut Vec<u8>, block: usize, size: u64) -> Result<(), AllocError>
    ensures { OnOk result (lines.new.items ≡ lines.old.items ++ number_header (codes "Content-length") (block + size)) }
{
    match size.checked_add(block as u64) {
        None => Err(AllocError),
        Some(sum) => put_number(lines, b"Content-length", sum),
    }
}

// Puts how long the properties and the text are together, where one of them stands.
fn put_length(
    lines: &mut Vec<u8>,
    block: &Option<Vec<u8>>,
    facts: &Option<Facts>,
) -> Result<(), AllocError>
    ensures { OnOk result (lines.new.items ≡ lines.old.items ++ length_header (block_value block.now) (option_map facts_value facts.now)) }
{
    match (block, facts) {
        (None, None) => Ok(()),
        (None, Some(facts)) => put_number(lines, b"Content-length", facts.size),
        (Some(block), None) => put_number(lines, b"Content-length", block.len() as u64),
        (Some(block), Some(facts)) => put_sum(lines, block.len(), facts.size),
    }
}

/// Puts the record of a path that was taken away.
pub(crate) fn put_delete(
    alloc: Global,
    lines: &mut Vec<u8>,
    path: &FsPath,
) -> Result<(), AllocError>
    ensures { OnOk result (lines.new.items ≡ lines.old.items ++ delete_record path.now) }
{
    put_path(alloc, lines, b"Node-path", path)?;
    put_header(lines, b"Node-action", b"delete")?;
    lines.extend_from_slice(b"\n\n\n")?;
    Ok(())
}

// Puts the record of what a replace took away.
fn put_taken(
    alloc: Global,
    lines: &mut Vec<u8>,
    action: Action,
    path: &FsPath,
) -> Result<(), AllocError>
    ensures { OnOk result (lines.new.items ≡ lines.old.items ++ delete_first action path.now) }
{
    match action {
        Action::Replace => put_delete(alloc, lines, path),
        Action::Add | Action::Modify | Action::Delete => Ok(()),
    }
}

// Puts what a path is, and what happened to it.
fn put_what(
    alloc: Global,
    lines: &mut Vec<u8>,
    item: &ChangeItem,
    kind: Kind,
) -> Result<(), AllocError>
    ensures { OnOk result (lines.new.items ≡ lines.old.items ++ what_headers item.now.path (action_word item.now.action) kind (option_map (λ s. (s.rev, s.path)) item.now.source)) }
{
    put_path(alloc, lines, b"Node-path", &item.path)?;
    put_header(lines, b"Node-kind", word_of(kind))?;
    put_header(lines, b"Node-action", verb_of(item.action))?;
    put_source(alloc, lines, &item.source)?;
    Ok(())
}

// Puts how long its properties and its text are, and the properties.
fn put_sizes(
    alloc: Global,
    lines: &mut Vec<u8>,
    block: &Option<Vec<u8>>,
    facts: &Option<Facts>,
) -> Result<(), AllocError>
    ensures { OnOk result (lines.new.items ≡ lines.old.items ++ size_headers (block_value block.now) (option_map facts_value facts.now)) }
{
    put_block_len(lines, block)?;
    put_facts(alloc, lines, facts)?;
    put_length(lines, block, facts)?;
    lines.extend_from_slice(b"\n")?;
    match block {
        None => Ok(()),
        Some(block) => lines.extend_from_slice(block),
    }
}

/// Puts the records of a path but for its text and what follows.
pub(crate) fn put_head(
    alloc: Global,
    lines: &mut Vec<u8>,
    item: &ChangeItem,
    kind: Kind,
    block: &Option<Vec<u8>>,
    facts: &Option<Facts>,
) -> Result<(), AllocError>
    ensures { OnOk result (lines.new.items ≡ lines.old.items ++ records_head item.now.path item.now.action kind (source_of item.now) (block_value block.now) (option_map facts_value facts.now)) }
{
    put_taken(alloc, lines, item.action, &item.path)?;
    put_what(alloc, lines, item, kind)?;
    put_sizes(alloc, lines, block, facts)
}
