//! Times of large input, read and written: `fsfs_bench FORM FILE`, the form being one of `dump`, `list`, `changes`,
//! `revision`, `text`, `put-dump`, `put-changes`.
//!
//! Without words it reads and writes a little of each form, and tells no times.
#![tactic(auto)]

mod form;
mod text;
mod writing;

use anyhow::{Result, bail};
use form::{Form, form_of};
use std::env::args;
use std::fs;
use std::rt::{Clock, Files};
use std::time::Instant;
use text::Text;
use writing::{put_changes, put_dump, read_items, read_pairs};

// How many times each call is timed; the quickest counts.
const ROUNDS: u32 = 5;

// The quicker of what was and what has gone by since the start, in microseconds.
fn quicker<R: Clock>(rt: &R, start: Instant, quickest: u64) -> Result<u64> {
    let took = start.elapsed(rt)?;
    Ok(quickest.min(u64::try_from(took.as_micros()).unwrap_or(u64::MAX)))
}

fn time_reading<R: Clock + AllocGlobal>(rt: &R, form: Form, bytes: &[u8]) -> Result<u64> {
    let mut quickest = u64::MAX;
    for _ in 0..ROUNDS {
        let start = Instant::now(rt)?;
        form.read(rt.alloc(), bytes)?;
        quickest = quicker(rt, start, quickest)?;
    }
    Ok(quickest)
}

fn time_text<R: Clock + AllocGlobal>(rt: &R, bytes: &[u8]) -> Result<u64> {
    let mut text = Text::new(rt.alloc(), bytes)?;
    let mut quickest = u64::MAX;
    for _ in 0..ROUNDS {
        let start = Instant::now(rt)?;
        text.read()?;
        quickest = quicker(rt, start, quickest)?;
    }
    Ok(quickest)
}

fn time_put_dump<R: Clock + AllocGlobal>(rt: &R, bytes: &[u8]) -> Result<u64> {
    let pairs = read_pairs(rt.alloc(), bytes)?;
    let mut quickest = u64::MAX;
    for _ in 0..ROUNDS {
        let start = Instant::now(rt)?;
        put_dump(rt.alloc(), &pairs)?;
        quickest = quicker(rt, start, quickest)?;
    }
    Ok(quickest)
}

fn time_put_changes<R: Clock + AllocGlobal>(rt: &R, bytes: &[u8]) -> Result<u64> {
    let items = read_items(rt.alloc(), bytes)?;
    let mut quickest = u64::MAX;
    for _ in 0..ROUNDS {
        let start = Instant::now(rt)?;
        put_changes(rt.alloc(), &items)?;
        quickest = quicker(rt, start, quickest)?;
    }
    Ok(quickest)
}

// Times what a file's bytes are read as, or written from.
fn time<R: Clock + Files + Print + AllocGlobal>(rt: &R, form: Form, path: &str) -> Result<()> {
    let bytes = fs::read(rt, path)?;
    let took = match form {
        Form::Text => time_text(rt, &bytes)?,
        Form::PutDump => time_put_dump(rt, &bytes)?,
        Form::PutChanges => time_put_changes(rt, &bytes)?,
        _ => time_reading(rt, form, &bytes)?,
    };
    let size = bytes.len();
    println!(rt; "{path}: {size} bytes in {took} us")?;
    Ok(())
}

// Reads and writes a little of each form.
fn check<R: Print + AllocGlobal>(rt: &R) -> Result<()> {
    let dump = b"K 1\na\nV 14\ndir 0-1.0.r1/0\nEND\n";
    let pairs = Form::Dump.read(rt.alloc(), dump)?;
    let entries = Form::List.read(rt.alloc(), dump)?;
    let item = b"0-1.0.r1/0 add-dir false false /a\n\n";
    let items = Form::Changes.read(rt.alloc(), item)?;
    let paths = Form::Revision.read(rt.alloc(), item)?;
    let bytes = Text::new(rt.alloc(), b"abc")?.read()?;
    println!(rt; "{pairs} pair, {entries} entry, {items} item, {paths} path, {bytes} bytes")?;
    let again = put_dump(rt.alloc(), &read_pairs(rt.alloc(), dump)?)?;
    let told = put_changes(rt.alloc(), &read_items(rt.alloc(), item)?)?;
    println!(rt; "written: {again} bytes, {told} bytes")?;
    Ok(())
}

fn main(rt: HostRuntime) -> Result<()> {
    let words: Vec<String> = args(&rt)?.skip(1).collect(rt.alloc())?;
    match words.as_slice() {
        [] => check(&rt),
        [form, path] => match form_of(form.as_str()) {
            Some(form) => time(&rt, form, path.as_str()),
            None => bail!("there is no such form"),
        },
        _ => bail!(
            "fsfs_bench [dump | list | changes | revision | text | put-dump | put-changes FILE]"
        ),
    }
}
