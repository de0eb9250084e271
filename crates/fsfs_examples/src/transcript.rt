// What is printed of a run.
use crate::command::Ran;
use crate::files::Files;
use fsfs_memory::{Transcript, cut};
use md5::{Digest, Md5};

/// Output that is longer than this is told by its length and its MD5.
const LONGEST: usize = 4096;

// Writes a file or an output: `|` before each line, `:` before bytes that no newline ends.
fn put_bytes(out: &mut Transcript, bytes: &[u8]) {
    if bytes.len() > LONGEST {
        out.tell("%", &bytes.len());
        out.say(" ");
        out.digits(&Md5::digest(bytes));
        out.say("\n");
    } else {
        out.lines(bytes, "|", ":");
    }
}

fn put_named(out: &mut Transcript, name: &str, bytes: &[u8]) {
    out.say("@ ");
    out.say(name);
    out.say("\n");
    put_bytes(out, bytes);
}

// Writes that there is no file of this name any more.
fn put_absent(out: &mut Transcript, name: &str) {
    out.say("- ");
    out.say(name);
    out.say("\n");
}

/// Writes the file of this name, or that there is none.
pub fn put_file(out: &mut Transcript, files: &Files, name: &str) {
    match files.get(name) {
        Some(bytes) => put_named(out, name, bytes),
        None => put_absent(out, name),
    }
}

/// Writes files, each behind its name.
pub fn put_files(out: &mut Transcript, files: &Files) {
    for (name, bytes) in files.iter() {
        put_named(out, name.as_str(), bytes);
    }
}

fn is_same(before: &Files, name: &str, bytes: &[u8]) -> bool {
    match before.get(name) {
        Some(old) => old.as_slice() == bytes,
        None => false,
    }
}

// Writes the names of those that are no more.
fn put_removed(out: &mut Transcript, before: &Files, now: &Files) {
    for name in before.keys() {
        if !now.contains_key(name.as_str()) {
            put_absent(out, name.as_str());
        }
    }
}

/// Writes the files that are not as they were before, and the names of those that are no more.
pub fn put_changes(out: &mut Transcript, before: &Files, now: &Files) {
    for (name, bytes) in now.iter() {
        if !is_same(before, name.as_str(), bytes) {
            put_named(out, name.as_str(), bytes);
        }
    }
    put_removed(out, before, now);
}

/// Writes what a run printed, and its status. Of output of which no more is known than that it is a first part of the whole,
/// that is written: `~`.
pub fn put_run(out: &mut Transcript, ran: &Ran, is_first_part: bool) {
    if is_first_part {
        out.say("~\n");
    } else {
        put_bytes(out, ran.out.bytes());
    }
    out.lines(ran.err.bytes(), "!", ";");
    out.tell("= ", &ran.status);
    out.say("\n");
}

// The words of an error line around the offset of damage, where that is this one.
fn around_end<'a>(line: &'a str, end: &str) -> Option<(&'a str, &'a str, &'a str)> {
    let text = line.strip_prefix('!')?;
    let (tool, fault) = cut(text);
    let (word, places) = cut(fault);
    let (revision, place) = cut(places);
    let (offset, what) = cut(place);
    if word == "Corrupt" && offset == end {
        Some((tool, revision, what))
    } else {
        None
    }
}

/// Writes what was printed; of damage at this offset it is said that it is at the end.
pub fn put_ended(out: &mut Transcript, text: &str, end: &str) {
    for line in text.lines() {
        match around_end(line, end) {
            Some((tool, revision, what)) => {
                out.say("!");
                out.say(tool);
                out.say(" Corrupt ");
                out.say(revision);
                out.say(" end ");
                out.say(what);
            }
            None => out.say(line),
        }
        out.say("\n");
    }
}
