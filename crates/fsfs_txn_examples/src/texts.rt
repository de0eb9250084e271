// Texts and properties at what was opened.
use crate::answers::{say_property_set, say_text_set};
use crate::faults::say_txn_error;
use crate::words::{prop_name_of, text_of};
use fsfs_base::HexDigest;
use fsfs_disk::Bench;
use fsfs_example_calls::HeldTxn;
use fsfs_memory::{MemSource, Transcript, cut};
use fsfs_txn::Opened;
use std::alloc::Global;

fn put_source<W: Bench + Drop>(
    alloc: Global,
    txn: &mut HeldTxn<W>,
    opened: &Opened,
    source: &mut MemSource,
    expect: Option<HexDigest<16>>,
    out: &mut Transcript,
) {
    match txn.put_text(alloc, opened, source, expect) {
        Ok(set) => say_text_set(&set, out),
        Err(error) => say_txn_error(&error, out),
    }
}

/// `TEXT`
pub fn put<W: Bench + Drop>(
    alloc: Global,
    txn: &mut HeldTxn<W>,
    opened: &Opened,
    text: &str,
    out: &mut Transcript,
) {
    let Some(bytes) = text_of(alloc, text) else {
        return out.say("? no bytes");
    };
    let mut source = MemSource::new(alloc, bytes);
    put_source(alloc, txn, opened, &mut source, None, out);
}

/// `MD5 TEXT`: a text that is to have this digest.
pub fn put_checked<W: Bench + Drop>(
    alloc: Global,
    txn: &mut HeldTxn<W>,
    opened: &Opened,
    rest: &str,
    out: &mut Transcript,
) {
    let (digest, text) = cut(rest);
    let (Some(digest), Some(bytes)) = (
        HexDigest::<16>::read(digest.as_bytes()),
        text_of(alloc, text),
    ) else {
        return out.say("? no digest");
    };
    let mut source = MemSource::new(alloc, bytes);
    put_source(alloc, txn, opened, &mut source, Some(digest), out);
}

/// `TEXT`: of a source whose first call fails.
pub fn put_failing<W: Bench + Drop>(
    alloc: Global,
    txn: &mut HeldTxn<W>,
    opened: &Opened,
    text: &str,
    out: &mut Transcript,
) {
    let (Some(bytes), Ok(first)) = (text_of(alloc, text), Vec::from_slice(alloc, &[1])) else {
        return out.say("? no bytes");
    };
    let mut source = MemSource::with_faults(bytes, first);
    put_source(alloc, txn, opened, &mut source, None, out);
}

fn set_value<W: Bench + Drop>(
    alloc: Global,
    txn: &mut HeldTxn<W>,
    opened: &Opened,
    name: &str,
    value: Option<Vec<u8>>,
    out: &mut Transcript,
) {
    let Some(name) = prop_name_of(alloc, name) else {
        return out.say("? no name");
    };
    match txn.set_prop(alloc, opened, &name, value) {
        Ok(set) => say_property_set(&set, out),
        Err(error) => say_txn_error(&error, out),
    }
}

/// `NAME VALUE`
pub fn set<W: Bench + Drop>(
    alloc: Global,
    txn: &mut HeldTxn<W>,
    opened: &Opened,
    rest: &str,
    out: &mut Transcript,
) {
    let (name, text) = cut(rest);
    let Some(value) = text_of(alloc, text) else {
        return out.say("? no bytes");
    };
    set_value(alloc, txn, opened, name, Some(value), out);
}

/// `NAME`: the property is taken away.
pub fn unset<W: Bench + Drop>(
    alloc: Global,
    txn: &mut HeldTxn<W>,
    opened: &Opened,
    name: &str,
    out: &mut Transcript,
) {
    set_value(alloc, txn, opened, name, None, out);
}

// No value of an example is longer.
const MOST: usize = 1_048_577;

/// `NAME LENGTH`: a value of so many letters.
pub fn set_long<W: Bench + Drop>(
    alloc: Global,
    txn: &mut HeldTxn<W>,
    opened: &Opened,
    rest: &str,
    out: &mut Transcript,
) {
    let (name, length) = cut(rest);
    let Ok(length) = length.parse::<usize>() else {
        return out.say("? no length");
    };
    match Vec::from_elem(alloc, b'z', length.min(MOST)) {
        Ok(value) => set_value(alloc, txn, opened, name, Some(value), out),
        Err(_) => out.lose(),
    }
}
