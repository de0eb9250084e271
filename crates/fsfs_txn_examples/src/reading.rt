// What stands at a path of a transaction.
use crate::answers::say_depth;
use crate::faults::say_txn_error;
use crate::words::path_of;
use fsfs_base::Kind;
use fsfs_disk::Bench;
use fsfs_example_calls::HeldTxn;
use fsfs_memory::Transcript;
use fsfs_noderev::{Rep, put_rep};
use fsfs_revision::Book;
use fsfs_txn::{Got, NodeView};
use std::alloc::Global;

fn say_rep(alloc: Global, rep: &Rep, out: &mut Transcript) {
    let mut text = Vec::new(alloc);
    match put_rep(alloc, &mut text, rep) {
        Ok(()) => out.bytes(&text),
        Err(_) => out.lose(),
    }
}

fn say_node(alloc: Global, node: &NodeView, out: &mut Transcript) {
    out.say(match node.kind {
        Kind::File => "file",
        Kind::Dir => "dir",
    });
    for (name, value) in node.props.as_map().iter() {
        out.say(" ");
        out.bytes(name);
        out.say("=");
        out.bytes(value);
    }
    if let Some(rep) = &node.text {
        out.say(" text ");
        say_rep(alloc, rep, out);
    }
}

/// `get PATH`
pub fn get<B: Book, W: Bench + Drop>(
    alloc: Global,
    book: &mut B,
    txn: &mut HeldTxn<W>,
    rest: &str,
    out: &mut Transcript,
) {
    let Some(path) = path_of(alloc, rest) else {
        return out.say("? no path");
    };
    match txn.get(alloc, book, &path) {
        Ok(Got::Node(node)) => say_node(alloc, &node, out),
        Ok(Got::NotFound(depth)) => say_depth(alloc, "NotFound ", &path, depth, out),
        Ok(Got::NotDir(depth)) => say_depth(alloc, "NotDir ", &path, depth, out),
        Err(error) => say_txn_error(&error, out),
    }
}
