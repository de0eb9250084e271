// What a step answers, and which history stands, as lines write them.
use fsfs_base::{FsPath, RevNum};
use fsfs_core::{Names, Outcome, State};
use fsfs_memory::Transcript;
use fsfs_model::flat_history;
use fsfs_tree::{History, Revision, Text, Tree};
use std::alloc::Global;
use std::collections::BTreeSet;

fn put_names(out: &mut Transcript, names: &Names) {
    out.say("names");
    for number in names.names.iter() {
        out.tell(" ", number);
    }
}

/// Writes what a step answers.
pub fn put_answer(out: &mut Transcript, outcome: &Outcome) {
    match outcome {
        Outcome::Barred => out.say("barred"),
        Outcome::Done => out.say("done"),
        Outcome::Failed => out.say("failed"),
        Outcome::Missing => out.say("missing"),
        Outcome::Stuck(place) => {
            out.say("stuck ");
            out.say(place.word());
        }
        Outcome::Youngest(number) => out.tell("r", number),
        Outcome::Floor(number) => out.tell("floor ", number),
        Outcome::Bytes(bytes) => {
            out.say("bytes ");
            out.bytes(bytes.as_slice());
        }
        Outcome::Properties(pairs) => {
            out.show(&pairs.as_map().len());
            out.say(" properties");
        }
        Outcome::Names(names) => put_names(out, names),
        Outcome::Conflict(path) => out.tell("conflict ", path),
    }
}

// Writes a path, and the text of a file that has one.
fn put_path(out: &mut Transcript, tree: &Tree, path: &FsPath) {
    out.tell(" ", path);
    if let Some(node) = tree.get(path)
        && let Text::Bytes(bytes) = &node.text
        && !bytes.is_empty()
    {
        out.say("=");
        out.bytes(bytes.as_slice());
    }
}

// Writes the paths of a tree.
fn put_paths(out: &mut Transcript, alloc: Global, tree: &Tree) {
    let mut paths: BTreeSet<FsPath> = BTreeSet::new(alloc);
    if tree.add_paths(&mut paths).is_err() {
        out.lose();
    }
    for path in paths.iter() {
        put_path(out, tree, path);
    }
}

fn put_revision(out: &mut Transcript, alloc: Global, rev: RevNum, revision: &Revision) {
    out.tell("r", &rev);
    put_paths(out, alloc, &revision.tree);
    out.say("\n");
}

/// Writes the youngest revision, and each revision of the history.
pub fn put_history(out: &mut Transcript, alloc: Global, state: &State) {
    out.tell("youngest ", &state.young());
    out.say("\n");
    for rev in 0..state.history().count() {
        if let Some(rev) = RevNum::new(rev as u64)
            && let Some(revision) = state.history().get(rev)
        {
            put_revision(out, alloc, rev, revision);
        }
    }
}

/// Writes when a path of a revision changed last, and whether it is among the changed paths of the revision.
pub fn put_node(out: &mut Transcript, history: &History, rev: RevNum, path: &FsPath) {
    let Some(revision) = history.get(rev) else {
        return out.say("no revision\n");
    };
    match revision.tree.get(path) {
        Some(node) => {
            out.show(path);
            out.tell(" changed in r", &node.last_changed);
        }
        None => out.tell("no ", path),
    }
    out.tell(", which r", &rev);
    match revision.changes.get(path) {
        Some(_) => out.say(" tells\n"),
        None => out.say(" does not tell\n"),
    }
}

fn put_points(out: &mut Transcript, points: &[(RevNum, FsPath)]) {
    for (rev, path) in points {
        out.tell("r", rev);
        out.tell(" ", path);
        out.say("\n");
    }
}

/// Writes the history of a path of a revision, the newest first.
pub fn put_walk(
    out: &mut Transcript,
    alloc: Global,
    history: &History,
    rev: RevNum,
    path: &FsPath,
) {
    match flat_history(alloc, history, rev, path) {
        Ok(points) => put_points(out, &points),
        Err(_) => out.lose(),
    }
}

/// Writes where the lock is stuck.
pub fn put_stuck(out: &mut Transcript, state: &State) {
    match state.stuck() {
        Some(place) => {
            out.say("stuck ");
            out.say(place.word());
            out.say("\n");
        }
        None => out.say("not stuck\n"),
    }
}
