// The trailers of revisions: what they say, and the same bytes written again; and the roots that they name.
use crate::nodes::put_node;
use crate::representations::put_error;
use crate::small_files::put_again;
use fsfs_base::RevNum;
use fsfs_memory::Transcript;
use fsfs_revision::{Trailer, put_trailer, read_root, read_tail, read_trailer};
use std::alloc::{AllocError, Global};

// These bytes without their trailer, and then the trailer again; none where its places are not among them.
fn ended(alloc: Global, bytes: &[u8], trailer: Trailer) -> Result<Vec<u8>, AllocError> {
    let digits = format!(in alloc; "\n{} {}\n", trailer.root, trailer.changes)?;
    let front = bytes
        .get(..bytes.len().saturating_sub(digits.len()))
        .unwrap_or(&[]);
    let length = front.len() as u64;
    if length <= trailer.root || length < trailer.changes {
        return Ok(Vec::new(alloc));
    }
    let mut out = Vec::from_slice(alloc, front)?;
    put_trailer(&mut out, trailer)?;
    Ok(out)
}

fn put_places(out: &mut Transcript, trailer: Trailer) {
    out.tell("root ", &trailer.root);
    out.tell(" changes ", &trailer.changes);
}

/// The trailer of a revision, of which all bytes are given.
pub fn put_whole(out: &mut Transcript, alloc: Global, bytes: &[u8]) {
    match read_trailer(bytes) {
        None => out.say("refused"),
        Some(trailer) => {
            put_places(out, trailer);
            put_again(out, bytes, ended(alloc, bytes, trailer));
        }
    }
}

/// The trailer of a revision, of which the bytes from this place on are given.
pub fn put_tail(out: &mut Transcript, from: &str, bytes: &[u8]) {
    let from = from.parse::<u32>().unwrap_or(0);
    if bytes.len() > 65536 {
        return out.say("? too many bytes");
    }
    match read_tail(from as u64, bytes) {
        Some(trailer) => put_places(out, trailer),
        None => out.say("refused"),
    }
}

/// The root of the revision of this number, of which all bytes are given.
pub fn put_root(out: &mut Transcript, alloc: Global, rev: &str, bytes: &[u8]) {
    let rev = RevNum::from(rev.parse::<u16>().unwrap_or(0));
    match read_root(alloc, rev, bytes) {
        Ok(root) => put_node(out, &root),
        Err(error) => put_error(out, error),
    }
}
