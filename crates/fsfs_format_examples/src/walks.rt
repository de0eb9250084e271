// The node at a path of a revision, and what it has.
ghost use Rattle.std.specs.Prelude.{◌≡◌};
ghost use Rattle.fsfs_base.specs.declared.kind.Kind.TheVariants.{Dir, File};

use crate::nodes::kind_word;
use crate::representations::{book_of, put_error};
use fsfs_base::{FsPath, Kind, RevNum};
use fsfs_dag::{DirEntry, Met, PlacedNode, TextError, entries, node_at, props, text_to};
use fsfs_memory::{MemSink, Transcript};
use fsfs_revision::{Book, MemBook, ReadError, RevProps};
use std::alloc::Global;

fn put_names(out: &mut Transcript, entries: &[DirEntry]) {
    for entry in entries {
        out.say(", ");
        out.say(entry.name.as_str());
    }
}

// The names in a directory.
fn put_dir(out: &mut Transcript, alloc: Global, book: &mut MemBook, dir: &PlacedNode)
    requires { dir.now.node.kind ≡ Dir }
{
    match entries(alloc, book, dir) {
        Ok(entries) => put_names(out, &entries),
        Err(error) => put_error(out, error),
    }
}

// The text of a file.
fn put_file(out: &mut Transcript, alloc: Global, book: &mut MemBook, file: &PlacedNode)
    requires { file.now.node.kind ≡ File }
{
    let mut sink = MemSink::new(alloc);
    match text_to(alloc, book, file, &mut sink) {
        Ok(()) => {
            out.say(", text ");
            out.bytes(sink.bytes());
        }
        Err(TextError::Unread(error)) => {
            out.say(", ");
            put_error(out, error);
        }
        Err(TextError::WriteFault) => out.say(", not written"),
    }
}

fn put_node(out: &mut Transcript, alloc: Global, book: &mut MemBook, node: &PlacedNode) {
    out.say(kind_word(node.node.kind));
    out.tell(" at ", &node.place().offset);
    match props(alloc, book, node) {
        Ok(pairs) => {
            out.tell(", ", &pairs.as_map().len());
            out.say(" properties");
        }
        Err(error) => put_error(out, error),
    }
    match node.node.kind {
        Kind::Dir => put_dir(out, alloc, book, node),
        Kind::File => put_file(out, alloc, book, node),
    }
}

fn put_met(out: &mut Transcript, alloc: Global, book: &mut MemBook, met: &Met) {
    match met {
        Met::Node(node) => put_node(out, alloc, book, node),
        _ => out.say("no node"),
    }
}

// What stands at a path of revision 1.
fn put_at(out: &mut Transcript, alloc: Global, book: &mut MemBook, path: &FsPath) {
    match node_at(alloc, book, RevNum::from(1), path) {
        Ok(met) => put_met(out, alloc, book, &met),
        Err(error) => put_error(out, error),
    }
    out.tell(", ", &book.faults());
    out.say(" faults");
}

/// The node at a path of the second of two revisions. The path may be followed by the number of a call that fails.
pub fn put_node_at(out: &mut Transcript, alloc: Global, first: &[u8], second: &[u8], with: &str) {
    let (path, call) = with.split_once(' ').unwrap_or((with, "0"));
    let Ok(mut book) = book_of(alloc, first, second, call.parse::<u64>().unwrap_or(0)) else {
        return out.lose();
    };
    match FsPath::parse(alloc, path) {
        Ok(path) => put_at(out, alloc, &mut book, &path),
        Err(_) => out.say("? no path"),
    }
}

/// The youngest of two revisions, and the first bytes of its properties, which are its own bytes.
pub fn put_youngest(out: &mut Transcript, alloc: Global, first: &[u8], second: &[u8]) {
    let Ok(mut book) = book_of(alloc, first, second, 0) else {
        return out.lose();
    };
    let Ok(youngest) = book.youngest() else {
        return out.say("no youngest");
    };
    out.tell("r", &youngest);
    let mut buffer = [0u8; 4];
    match book.read_props(youngest, &mut buffer) {
        Ok(count) => {
            out.say(" ");
            out.bytes(buffer.get(..count).unwrap_or(&[]));
        }
        Err(_) => out.say(" without properties"),
    }
}
