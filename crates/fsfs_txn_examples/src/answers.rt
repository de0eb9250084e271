// What the calls of a transaction answer.
use fsfs_base::FsPath;
use fsfs_memory::Transcript;
use fsfs_noderev::CopySource;
use fsfs_txn::{Copied, Deleted, Made, PropertySet, TextSet};
use std::alloc::Global;

/// A refusal, and the first names of a path at which it comes.
pub fn say_depth(alloc: Global, word: &str, path: &FsPath, depth: usize, out: &mut Transcript) {
    out.say(word);
    if depth > path.depth() {
        out.say("? a longer path");
        return;
    }
    match path.prefix(alloc, depth) {
        Ok(front) => out.show(&front),
        Err(_) => out.lose(),
    }
}

pub fn say_made(alloc: Global, path: &FsPath, made: &Made, out: &mut Transcript) {
    match made {
        Made::Done => out.say("made"),
        Made::NotFound(depth) => say_depth(alloc, "NotFound ", path, *depth, out),
        Made::NotDir(depth) => say_depth(alloc, "NotDir ", path, *depth, out),
        Made::Exists => out.tell("Exists ", path),
        Made::Mergeinfo => out.tell("Mergeinfo ", path),
        Made::TooManyEntries => out.say("TooManyEntries"),
    }
}

pub fn say_deleted(alloc: Global, path: &FsPath, deleted: &Deleted, out: &mut Transcript) {
    match deleted {
        Deleted::Done => out.say("deleted"),
        Deleted::NotFound(depth) => say_depth(alloc, "NotFound ", path, *depth, out),
        Deleted::NotDir(depth) => say_depth(alloc, "NotDir ", path, *depth, out),
        Deleted::Absent => out.tell("NotFound ", path),
        Deleted::RootFixed => out.say("RootFixed /"),
        Deleted::Mergeinfo => out.tell("Mergeinfo ", path),
    }
}

pub fn say_copied(
    alloc: Global,
    from: &CopySource,
    to: &FsPath,
    copied: &Copied,
    out: &mut Transcript,
) {
    match copied {
        Copied::Done => out.say("copied"),
        Copied::NotFound(depth) => say_depth(alloc, "NotFound ", to, *depth, out),
        Copied::NotDir(depth) => say_depth(alloc, "NotDir ", to, *depth, out),
        Copied::Exists => out.tell("Exists ", to),
        Copied::NoRev(youngest) => {
            out.tell("NoRev ", &from.rev);
            out.tell(" ", youngest);
        }
        Copied::SourceNotFound(depth) => say_depth(alloc, "NotFound ", &from.path, *depth, out),
        Copied::SourceNotDir(depth) => say_depth(alloc, "NotDir ", &from.path, *depth, out),
        Copied::Mergeinfo => out.tell("Mergeinfo ", to),
        Copied::TooManyEntries => out.say("TooManyEntries"),
    }
}

fn say_stale(opened: u64, now: u64, out: &mut Transcript) {
    out.tell("Stale ", &opened);
    out.tell(" ", &now);
}

pub fn say_text_set(set: &TextSet, out: &mut Transcript) {
    match set {
        TextSet::Done => out.say("put"),
        TextSet::Stale { opened, now } => say_stale(*opened, *now, out),
        TextSet::NotFile => out.say("NotFile"),
        TextSet::Mergeinfo => out.say("Mergeinfo"),
        TextSet::SourceFault => out.say("SourceFault"),
        TextSet::TooLong => out.say("TextTooLong"),
        TextSet::Checksum { kept, found } => {
            out.say("Checksum ");
            out.digits(&kept.bytes);
            out.say(" ");
            out.digits(&found.bytes);
        }
    }
}

pub fn say_property_set(set: &PropertySet, out: &mut Transcript) {
    match set {
        PropertySet::Done => out.say("set"),
        PropertySet::Stale { opened, now } => say_stale(*opened, *now, out),
        PropertySet::Mergeinfo => out.say("Mergeinfo"),
        PropertySet::TooLong => out.say("PropTooLong"),
    }
}
