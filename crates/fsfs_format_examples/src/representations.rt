// Representations: the bytes that stand under a name in two revisions, and why they are not read.
use fsfs_memory::Transcript;
use fsfs_noderev::read_rep;
use fsfs_revision::{
    Damage, DamageKind, MemBook, MemFile, MemRev, ReadError, RepWhat, Wrong, read_rep_bytes,
};
use std::alloc::{AllocError, Global};

// A revision whose properties are its own bytes once more.
fn kept(alloc: Global, bytes: &[u8]) -> Result<MemRev, AllocError> {
    Ok(MemRev {
        bytes: MemFile::Bytes(Vec::from_slice(alloc, bytes)?),
        props: MemFile::Bytes(Vec::from_slice(alloc, bytes)?),
    })
}

/// A book of two revisions, whose call of this number fails.
pub fn book_of(
    alloc: Global,
    first: &[u8],
    second: &[u8],
    failing: u64,
) -> Result<MemBook, AllocError> {
    let mut revs = Vec::new(alloc);
    revs.push(kept(alloc, first)?)?;
    revs.push(kept(alloc, second)?)?;
    Ok(MemBook::with_faults(revs, Vec::from_slice(alloc, &[failing])?))
}

fn put_kept_and_found(out: &mut Transcript, word: &str, kept: &[u8], found: &[u8]) {
    out.say(word);
    out.digits(kept);
    out.say(", but ");
    out.digits(found);
}

fn put_rep_damage(out: &mut Transcript, what: RepWhat) {
    match what {
        RepWhat::Header => out.say("no header"),
        RepWhat::EndRep => out.say("no trailer"),
        RepWhat::Size { kept, found } => {
            out.tell("size ", &kept);
            out.tell(", but ", &found);
        }
        RepWhat::Md5 { kept, found } => put_kept_and_found(out, "MD5 ", &kept.bytes, &found.bytes),
        RepWhat::Sha1 { kept, found } => {
            put_kept_and_found(out, "SHA-1 ", &kept.bytes, &found.bytes);
        }
        other => out.name(&other),
    }
}

fn put_damage(out: &mut Transcript, damage: Damage) {
    match damage.what {
        DamageKind::Rep(what) => put_rep_damage(out, what),
        what => {
            out.name(&what);
            out.tell(" at ", &damage.at.offset);
        }
    }
}

fn put_wrong(out: &mut Transcript, wrong: Wrong) {
    match wrong {
        Wrong::Refused(refusal) => out.show(&refusal),
        Wrong::Delta(at) => {
            out.tell("a delta at ", &at.offset);
            out.tell(" in revision ", &at.rev);
        }
        Wrong::Damaged(damage) => put_damage(out, damage),
    }
}

/// Why nothing was read.
pub fn put_error(out: &mut Transcript, error: ReadError) {
    match error {
        ReadError::Wrong(wrong) => put_wrong(out, wrong),
        ReadError::DiskFault => out.say("the disk failed"),
        ReadError::OutOfMemory => out.lose(),
    }
}

/// The representation of this name, in revisions 0 and 1 with these bytes.
pub fn put_bytes(out: &mut Transcript, alloc: Global, name: &[u8], first: &[u8], second: &[u8]) {
    let Some(rep) = read_rep(name) else {
        return out.say("no name");
    };
    if rep.rev.is_none() {
        return out.say("no name in a revision");
    }
    let Ok(mut book) = book_of(alloc, first, second, 0) else {
        return out.lose();
    };
    match read_rep_bytes(alloc, &mut book, &rep) {
        Ok(bytes) => {
            out.say("bytes ");
            out.bytes(&bytes);
        }
        Err(error) => put_error(out, error),
    }
}
