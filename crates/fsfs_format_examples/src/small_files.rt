// Small files: their values, written again, and where they are refused.
use fsfs_layout::{
    Folders, Format, FormatFile, Layout, ManifestError, read_current, read_format, read_manifest,
    read_min_unpacked_rev, read_next_ids, read_txn_current, read_uuid, write_current,
    write_manifest, write_next_ids, write_txn_current, write_uuid,
};
use fsfs_memory::Transcript;
use std::alloc::{AllocError, Global};

/// Writes where bytes are refused: `end` where that is where they end.
pub fn put_place(out: &mut Transcript, at: usize, bytes: &[u8]) {
    if at == bytes.len() {
        out.say("refused at its end");
    } else {
        out.tell("refused at ", &at);
    }
}

/// Writes whether what was read is written in the same bytes, or in which.
pub fn put_again(out: &mut Transcript, bytes: &[u8], again: Result<Vec<u8>, AllocError>) {
    match again {
        Err(_) => out.lose(),
        Ok(again) => {
            if again.as_slice() == bytes {
                out.say(", and so written");
            } else {
                out.say(", and written ");
                out.bytes(&again);
            }
        }
    }
}

/// `db/format`.
pub fn put_format(out: &mut Transcript, bytes: &[u8]) {
    match read_format(bytes) {
        Ok(FormatFile::Known(layout)) => match layout.folders() {
            Folders::OneFolder => out.say("linear"),
            Folders::Shards(size) => {
                out.show(&size);
                out.say(" in a shard");
            }
        },
        Ok(FormatFile::Other(number)) => out.tell("format ", &number),
        Err(fault) => put_place(out, fault.at, bytes),
    }
}

/// `db/uuid`.
pub fn put_uuid(out: &mut Transcript, alloc: Global, bytes: &[u8]) {
    match read_uuid(bytes) {
        Ok(uuid) => {
            out.bytes(uuid.as_bytes());
            put_again(out, bytes, write_uuid(alloc, &uuid));
        }
        Err(fault) => put_place(out, fault.at, bytes),
    }
}

/// `db/current`.
pub fn put_current(out: &mut Transcript, alloc: Global, bytes: &[u8]) {
    match read_current(bytes) {
        Ok(youngest) => {
            out.tell("r", &youngest);
            put_again(out, bytes, write_current(alloc, youngest));
        }
        Err(fault) => put_place(out, fault.at, bytes),
    }
}

// Shards of so many revisions, of two where that is no number of them; `linear` is one folder, and `three` format 3 in shards of two.
fn layout_of(word: &str) -> Layout {
    if word == "linear" {
        return Layout::new(Format::Four, Folders::OneFolder);
    }
    if word == "three" {
        return Layout::new(Format::Three, Folders::Shards(2));
    }
    match word.parse::<u32>() {
        Ok(size) if 0 < size && size <= 2147483647 => Layout::sharded(size),
        _ => Layout::sharded(2),
    }
}

/// `db/min-unpacked-rev`, where a shard has so many revisions, in one folder, or of format 3.
pub fn put_floor(out: &mut Transcript, size: &str, bytes: &[u8]) {
    match read_min_unpacked_rev(layout_of(size), bytes) {
        Ok(floor) => out.tell("r", &floor),
        Err(fault) => put_place(out, fault.at, bytes),
    }
}

/// `db/txn-current`.
pub fn put_txn_current(out: &mut Transcript, alloc: Global, bytes: &[u8]) {
    match read_txn_current(bytes) {
        Ok(number) => {
            out.show(&number.number);
            put_again(out, bytes, write_txn_current(alloc, &number));
        }
        Err(fault) => put_place(out, fault.at, bytes),
    }
}

/// `next-ids`.
pub fn put_next_ids(out: &mut Transcript, alloc: Global, bytes: &[u8]) {
    match read_next_ids(bytes) {
        Ok(ids) => {
            out.tell("node ", &ids.node.number);
            out.tell(", copy ", &ids.copy.number);
            put_again(out, bytes, write_next_ids(alloc, &ids));
        }
        Err(fault) => put_place(out, fault.at, bytes),
    }
}

fn put_offsets(out: &mut Transcript, offsets: &[u64]) {
    for offset in offsets {
        out.show(offset);
        out.say(" ");
    }
    out.say("are the offsets");
}

/// A manifest, where a shard has so many revisions.
pub fn put_manifest(out: &mut Transcript, alloc: Global, size: &str, bytes: &[u8]) {
    match read_manifest(alloc, bytes, 0, layout_of(size)) {
        Ok(offsets) => {
            put_offsets(out, &offsets);
            put_again(out, bytes, write_manifest(alloc, &offsets));
        }
        Err(ManifestError::Fault(fault)) => put_place(out, fault.at, bytes),
        Err(_) => out.lose(),
    }
}
