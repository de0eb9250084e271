//! A text as a plain representation, in a book of one revision.
use anyhow::{Result, bail};
use fsfs_noderev::{Rep, read_rep};
use fsfs_revision::{Book, Digester, MemBook, MemFile, MemRev, RepReader};
use std::alloc::{AllocError, Global};

// How many bytes are read at a time.
const PIECE: usize = 65536;

// A representation of this name, with both digests, at the beginning of revision 0.
fn rep_of(alloc: Global, text: &[u8]) -> Result<Rep> {
    let mut digester = Digester::new();
    digester.update(text);
    let (md5, sha1) = digester.finish();
    let size = text.len();
    let mut name = format!(in alloc; "0 0 {size} {size} ")?.into_bytes();
    name.extend_from_slice(&md5.write(alloc)?)?;
    name.push(b' ')?;
    name.extend_from_slice(&sha1.write(alloc)?)?;
    name.extend_from_slice(b" 0-0/_0")?;
    match read_rep(&name) {
        Some(rep) => Ok(rep),
        None => bail!("the representation has no name"),
    }
}

// A book of one revision, which is the representation alone.
fn book_of(alloc: Global, text: &[u8]) -> Result<MemBook, AllocError> {
    let mut bytes = Vec::with_capacity(alloc, text.len().saturating_add(13))?;
    bytes.extend_from_slice(b"PLAIN\n")?;
    bytes.extend_from_slice(text)?;
    bytes.extend_from_slice(b"ENDREP\n")?;
    let mut revs = Vec::new(alloc);
    revs.push(MemRev {
        bytes: MemFile::Bytes(bytes),
        props: MemFile::Absent,
    })?;
    Ok(MemBook::new(alloc, revs))
}

#[derive(Drop)]
pub(crate) struct Text {
    book: MemBook,
    rep: Rep,
    piece: Vec<u8>,
}

impl Text {
    pub(crate) fn new(alloc: Global, text: &[u8]) -> Result<Text> {
        Ok(Text {
            book: book_of(alloc, text)?,
            rep: rep_of(alloc, text)?,
            piece: vec![in alloc; 0u8; PIECE]?,
        })
    }

    /// Reads the whole representation, with its digests, and answers how many bytes came.
    pub(crate) fn read(&mut self) -> Result<usize> {
        read_whole(&mut self.book, &self.rep, &mut self.piece)
    }
}

// Reads a representation of a book a piece at a time, and answers how many bytes came.
fn read_whole<B: Book>(book: &mut B, rep: &Rep, piece: &mut [u8]) -> Result<usize> {
    if rep.rev.is_none() {
        bail!("no revision");
    }
    let mut reader = RepReader::begin(book, rep)?;
    let mut done = 0usize;
    for _ in 0..u64::MAX {
        let count = reader.next(book, piece)?;
        if count == 0 {
            break;
        }
        done = done.saturating_add(count);
    }
    if reader.left() != 0 {
        bail!("the representation isn't read to its end");
    }
    reader.finish(book)?;
    Ok(done)
}
