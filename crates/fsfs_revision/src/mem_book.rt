//! A book in memory, for tests and small tools. Calls whose numbers are listed fail.
ghost use Rattle.std.specs.Prelude.{◌≡◌, ◌<◌, ◌≤◌, ◌+◌, ◌↔◌, Ok, Err, IsTrue, IsErr, IfOk, IfErr, OnErr, MatchResult, vec_len, length, take};
ghost use Rattle.fsfs_base.specs.Counts.{Rose};
ghost use Rattle.fsfs_base.specs.Faults.{fails_next};
ghost use Rattle.fsfs_base.specs.Fields.RevNums.{last_rev};
ghost use Rattle.fsfs_revision.specs.declared.book.BookFault.TheVariants.{Short, DiskFault};
ghost use Rattle.fsfs_revision.specs.Told.{Gives, part_read, IsRefusalOf};
ghost use Rattle.fsfs_revision.specs.RevProps.{IsLook};
ghost use Rattle.fsfs_revision.specs.MemBook.{bytes_in, props_in, read_of};

use crate::Refusal;
use crate::book::{Book, BookFault};
use crate::rev_props::RevProps;
use fsfs_base::{Faults, RevNum, SmallFault};
use std::alloc::Global;

/// What stands where the bytes of a file are looked for.
#[derive(Drop)]
pub enum MemFile {
    Bytes(Vec<u8>),
    /// There is no such file.
    Absent,
    /// The small file that says where the bytes stand is not in its format.
    Damaged(SmallFault),
}

/// A revision of a book in memory.
#[derive(Drop)]
pub struct MemRev {
    pub bytes: MemFile,
    pub props: MemFile,
}

/// A book in memory. It tells everything, and nothing is below it.
#[derive(Drop)]
pub struct MemBook {
    revs: Vec<MemRev>,
    youngest: RevNum,
    faults: Faults,
    ghost last: { vec_len revs ≡ youngest + 1 },
}

fn read_kept(rev: RevNum, kept: &MemFile) -> Result<&[u8], Refusal>
    ensures read { MatchResult result (λ b. read_of rev kept.now ≡ Ok b.now) (λ e. read_of rev kept.now ≡ Err e) }
    ensures about { IfErr result (IsRefusalOf rev) }
{
    match kept {
        MemFile::Bytes(bytes) => Ok(bytes.as_slice()),
        MemFile::Absent => Err(Refusal::Missing { rev }),
        MemFile::Damaged(fault) => Err(Refusal::Small(*fault)),
    }
}

fn bytes_of(revs: &[MemRev], youngest: RevNum, rev: RevNum) -> Result<&[u8], Refusal>
    requires { length revs.now ≡ youngest + 1 }
    ensures read { MatchResult result (λ b. bytes_in revs.now rev ≡ Ok b.now) (λ e. bytes_in revs.now rev ≡ Err e) }
    ensures about { IfErr result (IsRefusalOf rev) }
{
    match revs.get(rev.get() as usize) {
        None => Err(Refusal::NoRev {
            asked: rev,
            youngest,
        }),
        Some(found) => read_kept(rev, &found.bytes),
    }
}

fn props_of(revs: &[MemRev], youngest: RevNum, rev: RevNum) -> Result<&[u8], Refusal>
    requires { length revs.now ≡ youngest + 1 }
    ensures read { MatchResult result (λ b. props_in revs.now rev ≡ Ok b.now) (λ e. props_in revs.now rev ≡ Err e) }
    ensures about { IfErr result (IsRefusalOf rev) }
{
    match revs.get(rev.get() as usize) {
        None => Err(Refusal::NoRev {
            asked: rev,
            youngest,
        }),
        Some(found) => read_kept(rev, &found.props),
    }
}

// The first bytes of a text, as many as fit.
fn copy_front(text: &[u8], buffer: &mut [u8]) -> usize
    ensures bound { result ≤ length buffer.new }
    ensures look { IsLook text.now buffer.old buffer.new result }
{
    let count = text.len().min(buffer.len());
    buffer[..count].copy_from_slice(&text[..count]);
    count
}

// The bytes from an offset on, as many as fit.
fn copy_part(bytes: &[u8], rev: RevNum, offset: u64, buffer: &mut [u8]) -> Result<usize, BookFault>
    ensures bound { IfOk result (λ n. n ≤ length buffer.new) }
    ensures part { Gives (λ n. take n buffer.new) result (part_read rev offset (length buffer.old) (Ok bytes.now)) }
    ensures short { IfErr result (λ e. e ≡ Short rev offset) }
{
    if (bytes.len() as u64) < offset {
        return Err(BookFault::Short { rev, offset });
    }
    let rest = &bytes[offset as usize..];
    let count = rest.len().min(buffer.len());
    buffer[..count].copy_from_slice(&rest[..count]);
    Ok(count)
}

impl MemBook {
    /// A book of these revisions, the first being revision 0.
    pub fn new(alloc: Global, revs: Vec<MemRev>) -> MemBook
        requires some { 0 < vec_len revs }
        requires few { vec_len revs ≤ last_rev + 1 }
        ensures revs { result.revs.items ≡ revs.items }
        ensures faults { result.faults.count ≡ 0 }
    {
        MemBook::with_faults(revs, Vec::new(alloc))
    }

    /// The same, of which the calls with these numbers fail. The first call is 1.
    pub fn with_faults(revs: Vec<MemRev>, failing: Vec<u64>) -> MemBook
        requires some { 0 < vec_len revs }
        requires few { vec_len revs ≤ last_rev + 1 }
        ensures revs { result.revs.items ≡ revs.items }
        ensures failing { result.faults.failing ≡ failing }
        ensures calls { result.faults.calls ≡ 0 }
        ensures faults { result.faults.count ≡ 0 }
    {
        let Some(youngest) = RevNum::new(revs.len() as u64 - 1) else {
            unreachable!()
        };
        MemBook {
            revs,
            youngest,
            faults: Faults::new(failing),
        }
    }

    /// How often it has failed.
    pub fn faults(&self) -> u64
        ensures { result ≡ self.now.faults.count }
    {
        self.faults.count
    }

    // Counts a call. It fails where it is listed, and only there.
    fn call(&mut self) -> Result<(), BookFault>
        ensures fails { IsErr result ↔ IsTrue (fails_next self.old.faults) }
        ensures revs { self.new.revs ≡ self.old.revs }
        ensures fault { IfErr result (λ e. e ≡ DiskFault) }
        ensures later { self.old.faults.count ≤ self.new.faults.count }
        ensures rose { OnErr result (Rose self.old.faults.count self.new.faults.count) }
    {
        match self.faults.call() {
            Ok(()) => Ok(()),
            Err(_) => Err(BookFault::DiskFault),
        }
    }
}

impl Book for MemBook {
    ghost use Rattle.fsfs_revision.specs.MemBook.{told_in};
    ghost use Rattle.fsfs_revision.specs.MemBookLemmas.{length-bytes_in};

    ghost Below = { Unit {0} };

    ghost told = { λ b. told_in b.revs.items };

    ghost faults = { λ b. b.faults.count };

    fn youngest(&mut self) -> Result<RevNum, BookFault> {
        match self.call() {
            Ok(()) => Ok(self.youngest),
            Err(fault) => Err(fault),
        }
    }

    fn rev_len(&mut self, rev: RevNum) -> Result<u64, BookFault> {
        self.call()?;
        match bytes_of(&self.revs, self.youngest, rev) {
            Ok(bytes) => Ok(bytes.len() as u64),
            Err(refusal) => Err(BookFault::Refused(refusal)),
        }
    }

    fn read_rev(
        &mut self,
        rev: RevNum,
        offset: u64,
        buffer: &mut [u8],
    ) -> Result<usize, BookFault> {
        self.call()?;
        match bytes_of(&self.revs, self.youngest, rev) {
            Ok(bytes) => copy_part(bytes, rev, offset, buffer),
            Err(refusal) => Err(BookFault::Refused(refusal)),
        }
    }

    ghost fits = { λ book rev bytes told. length-bytes_in book.revs.items rev bytes told };
}

/// Of each property file it reads the one text that it was given.
impl RevProps for MemBook {
    ghost use Rattle.fsfs_revision.specs.RevProps.{only};

    ghost may_read = { λ b. only (props_in b.revs.items) };

    fn read_props(&mut self, rev: RevNum, buffer: &mut [u8]) -> Result<usize, BookFault> {
        self.call()?;
        match props_of(&self.revs, self.youngest, rev) {
            Ok(text) => Ok(copy_front(text, buffer)),
            Err(refusal) => Err(BookFault::Refused(refusal)),
        }
    }
}
