// Hash dumps and node-revisions: their values, written again, and where they are refused.
use crate::small_files::{put_again, put_place};
use fsfs_base::{Kind, Pairs};
use fsfs_layout::{HashError, add_entry, drop_entry, read_children, read_hash, write_hash};
use fsfs_memory::Transcript;
use fsfs_noderev::{
    Contents, CopyRoot, NodeError, NodeId, NodeRev, Part, Place, Rep, Uniquifier, read_noderev,
    read_rep, write_noderev,
};
use std::alloc::{AllocError, Global};

fn put_pair(out: &mut Transcript, name: &[u8], value: &[u8]) {
    out.say(", ");
    out.bytes(name);
    out.say(" = ");
    out.bytes(value);
}

fn put_pairs(out: &mut Transcript, pairs: &Pairs) {
    out.show(&pairs.as_map().len());
    out.say(" names");
    for (name, value) in pairs.as_map().iter() {
        put_pair(out, name, value);
    }
}

fn put_no_dump(out: &mut Transcript, error: HashError, bytes: &[u8]) {
    match error {
        HashError::Fault(fault) => put_place(out, fault.at, bytes),
        HashError::OutOfMemory => out.lose(),
    }
}

/// A hash dump: its names and values.
pub fn put_dump(out: &mut Transcript, alloc: Global, bytes: &[u8]) {
    match read_hash(alloc, bytes) {
        Ok(pairs) => {
            put_pairs(out, &pairs);
            put_again(out, bytes, write_hash(alloc, &pairs));
        }
        Err(error) => put_no_dump(out, error, bytes),
    }
}

// A children file to which these pairs are added, and from which the first is taken away.
fn children_of(alloc: Global, pairs: &Pairs) -> Result<Vec<u8>, AllocError> {
    let mut file = Vec::from_slice(alloc, b"END\n")?;
    for (name, value) in pairs.as_map().iter() {
        add_entry(&mut file, name, value)?;
    }
    if let Some((name, _)) = pairs.as_map().iter().next() {
        drop_entry(&mut file, name)?;
    }
    Ok(file)
}

fn put_children_file(out: &mut Transcript, alloc: Global, file: &[u8]) {
    out.bytes(file);
    out.say(" has ");
    match read_children(alloc, file) {
        Ok(pairs) => put_pairs(out, &pairs),
        Err(error) => put_no_dump(out, error, file),
    }
}

/// The children file to which the pairs of a dump are added, and from which the first is taken away, and its pairs.
pub fn put_children(out: &mut Transcript, alloc: Global, bytes: &[u8]) {
    match read_hash(alloc, bytes) {
        Ok(pairs) => match children_of(alloc, &pairs) {
            Ok(file) => put_children_file(out, alloc, &file),
            Err(_) => out.lose(),
        },
        Err(error) => put_no_dump(out, error, bytes),
    }
}

fn put_part(out: &mut Transcript, part: &Part) {
    match part {
        Part::New(number) => out.tell("new ", &number.number),
        Part::Old(number) => out.show(&number.number),
        Part::Made(number, rev) => {
            out.show(&number.number);
            out.tell(" of r", rev);
        }
    }
}

/// An id: its node, its copy and its place.
pub fn put_id(out: &mut Transcript, id: &NodeId) {
    out.say("node ");
    put_part(out, &id.node);
    out.say(" copy ");
    put_part(out, &id.copy);
    match &id.place {
        Place::At(rev, offset) => {
            out.tell(" at ", offset);
            out.tell(" in r", rev);
        }
        Place::In(txn) => {
            out.tell(" in ", &txn.base);
            out.tell("-", &txn.number.number);
        }
    }
}

/// A kind's word.
pub fn kind_word(kind: Kind) -> &'static str {
    match kind {
        Kind::Dir => "dir",
        Kind::File => "file",
    }
}

fn put_unique(out: &mut Transcript, unique: &Uniquifier) {
    out.say(" sha1 ");
    out.digits(&unique.sha1.bytes);
    out.tell(" drawn ", &unique.number.number);
    out.tell(" in ", &unique.txn.base);
    out.tell("-", &unique.txn.number.number);
}

fn put_rep(out: &mut Transcript, rep: &Rep) {
    out.tell("at ", &rep.offset);
    match rep.rev {
        Some(rev) => out.tell(" in r", &rev),
        None => out.say(" in its transaction"),
    }
    out.tell(" length ", &rep.length);
    out.tell(" size ", &rep.size);
    out.say(" md5 ");
    out.digits(&rep.md5.bytes);
    if let Some(unique) = &rep.unique {
        put_unique(out, unique);
    }
}

fn put_contents(out: &mut Transcript, word: &str, contents: &Option<Contents>) {
    match contents {
        None => {}
        Some(Contents::Own) => {
            out.say(word);
            out.say("of its own");
        }
        Some(Contents::At(rep)) => {
            out.say(word);
            put_rep(out, rep);
        }
    }
}

fn put_copy_root(out: &mut Transcript, root: &CopyRoot) {
    match root.rev {
        Some(rev) => out.tell(", copy root r", &rev),
        None => out.say(", copy root in its transaction"),
    }
    out.tell(" ", &root.path);
}

/// A node-revision, whose optional fields are named where they are there.
pub fn put_node(out: &mut Transcript, node: &NodeRev) {
    out.say(kind_word(node.kind));
    out.tell(" ", &node.created_path);
    out.say(", ");
    put_id(out, &node.id);
    if let Some(predecessor) = &node.predecessor {
        out.say(", after ");
        put_id(out, predecessor);
    }
    out.tell(", count ", &node.count);
    put_contents(out, ", text ", &node.text);
    put_contents(out, ", properties ", &node.props);
    if let Some(source) = &node.copy_from {
        out.tell(", from r", &source.rev);
        out.tell(" ", &source.path);
    }
    if let Some(root) = &node.copy_root {
        put_copy_root(out, root);
    }
}

/// A node-revision.
pub fn put_noderev(out: &mut Transcript, alloc: Global, bytes: &[u8]) {
    match read_noderev(alloc, bytes) {
        Ok(node) => {
            put_node(out, &node);
            put_again(out, bytes, write_noderev(alloc, &node));
        }
        Err(NodeError::Fault(fault)) => {
            put_place(out, fault.at, bytes);
            out.say(", ");
            out.name(&fault.which);
        }
        Err(_) => out.lose(),
    }
}

/// The name of a representation.
pub fn put_name(out: &mut Transcript, bytes: &[u8]) {
    match read_rep(bytes) {
        Some(rep) => put_rep(out, &rep),
        None => out.say("refused"),
    }
}
