// What stands in one field: numbers, names of properties, paths, ids, and the name of a transaction.
use crate::nodes::put_id;
use crate::small_files::{put_again, put_place};
use fsfs_base::{
    FsPath, PathError, PropName, PropNameError, TxnName, next_b36, read_b36, read_dec,
    read_txn_name, write_b36, write_dec,
};
use fsfs_layout::{PartName, TxnFile};
use fsfs_memory::Transcript;
use fsfs_noderev::{read_id, write_id};
use std::alloc::Global;

/// A decimal number.
pub fn put_decimal(out: &mut Transcript, alloc: Global, bytes: &[u8]) {
    match read_dec(bytes) {
        None => out.say("refused"),
        Some(number) => {
            out.show(&number);
            put_again(out, bytes, write_dec(alloc, number));
        }
    }
}

/// A number in base 36, and the one that follows it.
pub fn put_base36(out: &mut Transcript, alloc: Global, bytes: &[u8]) {
    let Some(number) = read_b36(bytes) else {
        return out.say("refused");
    };
    out.show(&number.number);
    if let Some(next) = next_b36(&number) {
        out.tell(", before ", &next.number);
    }
    put_again(out, bytes, write_b36(alloc, &number));
}

/// The name of a property.
pub fn put_prop_name(out: &mut Transcript, alloc: Global, bytes: &[u8]) {
    match PropName::parse(alloc, str::from_utf8(bytes).unwrap_or("")) {
        Ok(name) => out.say(name.as_str()),
        Err(PropNameError::Bad(bad)) => put_place(out, bad.at, bytes),
        Err(PropNameError::OutOfMemory) => out.lose(),
    }
}

// A path, and the one above it.
fn put_below(out: &mut Transcript, alloc: Global, path: &FsPath) {
    out.show(path);
    match path.parent(alloc) {
        Err(_) => out.lose(),
        Ok(parent) => {
            if let Some(parent) = &parent
                && path.is_below(parent)
            {
                out.tell(" below ", parent);
            }
        }
    }
}

/// A path.
pub fn put_path_text(out: &mut Transcript, alloc: Global, bytes: &[u8]) {
    match FsPath::parse(alloc, str::from_utf8(bytes).unwrap_or("")) {
        Ok(path) => put_below(out, alloc, &path),
        Err(PathError::Bad(bad)) => {
            out.name(&bad.why);
            out.tell(" at ", &bad.at);
        }
        Err(PathError::OutOfMemory) => out.lose(),
    }
}

/// The id of a node-revision.
pub fn put_id_text(out: &mut Transcript, alloc: Global, bytes: &[u8]) {
    match read_id(bytes) {
        None => out.say("refused"),
        Some(id) => {
            put_id(out, &id);
            put_again(out, bytes, write_id(alloc, &id));
        }
    }
}

fn put_txn_file(out: &mut Transcript, txn: &TxnName, file: &TxnFile) {
    out.say(" ");
    out.say(file.name(txn).as_str());
}

/// The name of a transaction, and those of its files.
pub fn put_txn_files(out: &mut Transcript, bytes: &[u8]) {
    let Some(txn) = read_txn_name(bytes) else {
        return out.say("refused");
    };
    out.tell("on r", &txn.base);
    out.say(":");
    put_txn_file(out, &txn, &TxnFile::Folder);
    put_txn_file(out, &txn, &TxnFile::Part(PartName::new("next-ids")));
    put_txn_file(out, &txn, &TxnFile::ProtoRevision);
    put_txn_file(out, &txn, &TxnFile::ProtoRevisionLock);
}
